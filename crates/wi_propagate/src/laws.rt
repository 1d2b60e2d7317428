//! Laws about what cells show. Each is the contract of a function that does nothing.

ghost use Rattle.wi_sheet.specs.Laws.{BoundIsNeverFelt, ValueByStep, CircularIsAbove, CircularReadsCircular, PutsMakeNoCycle};
ghost use Rattle.wi_sheet.specs.Locality.{RestsOnReach, OthersDoNotCount, SameForReached, ReachingSuffices, WhatIfIsOneList, OrderStays, RestsStay};
ghost use Rattle.wi_sheet.specs.Locality.{ConeStays, OutsideStays, OutsideStaysUnderPuts, OutsideIsUnmoved, ReachIsDecided, ConeIsDecided, ReachStays};
ghost use Rattle.wi_sheet.specs.DemandLaws.{DemandByStep, DemandUnderReplacements, CircularDemandsNothing, PlainDemandsNothing};

/// How a cell's value follows from those of the cells that its formula reads.
pub fn value_by_step()
    ensures bound { BoundIsNeverFelt }
    ensures step { ValueByStep }
{}

/// A cell is circular exactly where it reads one that is, and replacements make none so.
pub fn circular_from_reads()
    ensures above { CircularIsAbove }
    ensures reads { CircularReadsCircular }
    ensures puts { PutsMakeNoCycle }
{}

/// What a cell shows rests on the cells that it reaches alone, and so on the replacements of these alone. The
/// replacements of a what-if and those around it are one list.
pub fn value_is_local()
    ensures local { RestsOnReach }
    ensures others { OthersDoNotCount }
    ensures same { SameForReached }
    ensures reaching { ReachingSuffices }
    ensures what_if { WhatIfIsOneList }
{}

/// Replacements are left out and put in without loss: what a formula rests on is the same under those alone whose cells
/// its cell reaches, and what is made of replacements in order is in order.
pub fn replacements_are_local()
    ensures order { OrderStays }
    ensures rests { RestsStay }
{}

/// An edit changes nothing outside the cone of the edited cells, under any replacements.
pub fn edit_is_local()
    ensures cone { ConeStays }
    ensures outside { OutsideStays }
    ensures reach { ReachStays }
    ensures puts { OutsideStaysUnderPuts }
    ensures unmoved { OutsideIsUnmoved }
{}

/// Whether a cell reaches another, or is in a cone, is told by a test.
pub fn reach_is_decided()
    ensures reach { ReachIsDecided }
    ensures cone { ConeIsDecided }
{}

/// What a case demands: itself, and what those cases demand on which its formula's value rests. A circular cell demands
/// nothing, nor does one without a formula under its replacements.
pub fn demand_by_step()
    ensures step { DemandByStep }
    ensures replacements { DemandUnderReplacements }
    ensures circular { CircularDemandsNothing }
    ensures plain { PlainDemandsNothing }
{}
