//! Graphs after edits.

ghost use Rattle.std.specs.Prelude.{◌≡◌, None};

use crate::cells::{Changes, cell, cells, changes};
use crate::texts::{expect_addresses, expect_that};
use std::alloc::Global;
use std::process::Abort;
use wi_graph::Graph;
use wi_parser::Content;
use wi_values::Address;

/// Whether it is kept or taken back, and the contents of cells.
type Edit<'a> = (bool, &'a str);

fn stage(rt: &impl Abort, alloc: Global, graph: &mut Graph, texts: &str)
    requires { graph.old.staged ≡ None }
{
    let changes = changes(rt, alloc, texts).expect(rt, texts);
    graph.stage(&changes).expect(rt, texts);
    drop(changes);
}

/// Takes an edit.
fn edit(rt: &impl Abort, alloc: Global, graph: &mut Graph, edit: &Edit<'_>)
    requires { graph.old.staged ≡ None }
    ensures { graph.new.staged ≡ None }
{
    let (is_kept, texts) = *edit;
    stage(rt, alloc, graph, texts);
    if is_kept {
        graph.commit();
    } else {
        graph.rollback();
    }
}

/// Takes edits, one after another.
fn edit_all(rt: &impl Abort, alloc: Global, graph: &mut Graph, edits: &[Edit<'_>])
    requires { graph.old.staged ≡ None }
    ensures { graph.new.staged ≡ None }
{
    for each in edits {
        edit(rt, alloc, graph, each);
    }
}

/// These are the cone of some cells, a space behind each.
fn expect_cone(rt: &impl Abort, alloc: Global, graph: &Graph, names: &str, wanted: &str)
    requires { graph.now.staged ≡ None }
{
    let edited = cells(rt, alloc, names);
    let cone = graph.cone(&edited).expect(rt, names);
    expect_addresses(rt, alloc, names, &cone, wanted);
}

fn expect_cones(rt: &impl Abort, alloc: Global, graph: &Graph, rows: &[(&str, &str)])
    requires { graph.now.staged ≡ None }
{
    for (names, wanted) in rows {
        expect_cone(rt, alloc, graph, names, wanted);
    }
}

fn expect_circular(rt: &impl Abort, graph: &Graph, rows: &[(&str, bool)])
    requires { graph.now.staged ≡ None }
{
    for (name, wanted) in rows {
        let is_circular = graph.is_circular(cell(rt, name));
        expect_that(rt, is_circular == *wanted, name);
    }
}

/// Cones, and cells that are circular or not, after these edits.
fn expect(
    rt: &impl Abort,
    alloc: Global,
    edits: &[Edit<'_>],
    cones: &[(&str, &str)],
    circular: &[(&str, bool)],
) {
    let mut graph = Graph::new(alloc);
    edit_all(rt, alloc, &mut graph, edits);
    expect_circular(rt, &graph, circular);
    expect_cones(rt, alloc, &graph, cones);
    drop(graph);
}

const READING: Edit<'static> = (
    true,
    "A1 2, B1 =[.A1]*2, C1 =[.A2:.A1048576]&[.B1], D1 =MULTIPLE.OPERATIONS([.C1];[.E5];[.F6]), E1 =1+1, F1 =[.D1]+[.B1]",
);

#[test]
fn cones_have_readers_at_any_remove(rt: HostRuntime) {
    expect(
        &rt,
        rt.alloc(),
        &[READING],
        &[
            ("", ""),
            ("A1", "A1 B1 C1 D1 F1 "),
            ("A9", "C1 D1 F1 A9 "),
            ("A1048576", "C1 D1 F1 A1048576 "),
            ("F6 E5 F6", "D1 F1 E5 F6 "),
            ("E1", "E1 "),
            ("F1 B1", "B1 C1 D1 F1 "),
            ("XFD1048576", "XFD1048576 "),
        ],
        &[],
    );
}

const LATER: Edit<'static> = (true, "C1 -, D1 7, E1 =[.A9], E1 =[.A1]");

#[test]
fn an_edit_gives_other_readers(rt: HostRuntime) {
    expect(
        &rt,
        rt.alloc(),
        &[READING, LATER],
        &[("A1", "A1 B1 E1 F1 "), ("A9", "A9 "), ("D1", "D1 F1 ")],
        &[],
    );
}

const CYCLE: Edit<'static> = (
    true,
    "A1 =[.C1], B1 =[.A1]+1, C1 =[.B1]+[.A9], D1 =[.B1:.C9], E1 =[.A9], F1 =[.F1]",
);

#[test]
fn cells_on_and_above_a_cycle_are_circular(rt: HostRuntime) {
    expect(
        &rt,
        rt.alloc(),
        &[CYCLE],
        &[],
        &[
            ("A1", true),
            ("B1", true),
            ("C1", true),
            ("D1", true),
            ("E1", false),
            ("F1", true),
            ("A9", false),
        ],
    );
}

const OPENED: Edit<'static> = (true, "B1 5");

#[test]
fn an_opened_cycle_is_none(rt: HostRuntime) {
    expect(
        &rt,
        rt.alloc(),
        &[CYCLE, OPENED],
        &[],
        &[
            ("A1", false),
            ("B1", false),
            ("C1", false),
            ("D1", false),
            ("F1", true),
        ],
    );
}

const TAKEN_BACK: Edit<'static> = (false, "A1 =[.F1], B1 -, E1 =[.A1]");

#[test]
fn what_is_rolled_back_was_not(rt: HostRuntime) {
    expect(
        &rt,
        rt.alloc(),
        &[READING, TAKEN_BACK],
        &[("A1", "A1 B1 C1 D1 F1 "), ("F1", "F1 ")],
        &[("A1", false), ("F1", false)],
    );
}

/// A formula of one more than the cell of this row of column A, the first row being 1.
fn one_more(rt: &impl Abort, alloc: Global, row: u32) -> Content {
    let text = format!(in alloc; "=[.A{row}]+1").expect(rt, "memory for a text");
    Content::read(alloc, text.as_str()).expect(rt, "a formula")
}

/// Below A1 a thousand cells, each one more than the cell above.
fn chain(rt: &impl Abort, alloc: Global) -> Changes {
    let mut changes = Vec::new(alloc);
    for row in 1..1_001 {
        let change = (Address::at(row, 0), Some(one_more(rt, alloc, row)));
        changes.push(change).expect(rt, "memory for a change");
    }
    changes
}

/// Takes the edit that makes the chain.
fn take_chain(rt: &impl Abort, alloc: Global, graph: &mut Graph)
    requires { graph.old.staged ≡ None }
    ensures { graph.new.staged ≡ None }
{
    let chain = chain(rt, alloc);
    graph.stage(&chain).expect(rt, "the chain");
    drop(chain);
    graph.commit();
}

/// How many cells depend on the first.
fn count_chain(rt: &impl Abort, graph: &Graph) -> usize
    requires { graph.now.staged ≡ None }
{
    let cone = graph.cone(&[Address::at(0, 0)]).expect(rt, "the cone");
    cone.len()
}

const CLOSED: Edit<'static> = (true, "A1 =[.A1001]");

const LEFT_OPEN: Edit<'static> = (true, "A1 =[.B1]");

/// The chain is counted, closed and opened again.
fn expect_chain(rt: &impl Abort, alloc: Global, graph: &mut Graph)
    requires { graph.old.staged ≡ None }
{
    take_chain(rt, alloc, graph);
    assert!(rt; count_chain(rt, graph) == 1_001);
    edit(rt, alloc, graph, &CLOSED);
    expect_circular(rt, graph, &[("A501", true)]);
    edit(rt, alloc, graph, &LEFT_OPEN);
    expect_circular(rt, graph, &[("A501", false)]);
}

#[test]
fn a_thousand_cells_depend_on_the_first(rt: HostRuntime) {
    let mut graph = Graph::new(rt.alloc());
    expect_chain(&rt, rt.alloc(), &mut graph);
    drop(graph);
}
