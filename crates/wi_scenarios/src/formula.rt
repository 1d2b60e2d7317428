//! The command `formula`: a cell's address, and its content as a text.

ghost use Rattle.wi_scenarios.specs.Commands.Command as command;
ghost use Rattle.wi_scenarios.specs.Commands.Operands.{cell};
ghost use Rattle.wi_scenarios.specs.Commands.Step.{IsStep};
ghost use Rattle.wi_scenarios.specs.Inner.Calls.{ServesInto};
ghost use Rattle.wi_scenarios.specs.Inner.Sound.{state_of};
ghost use Rattle.wi_scenarios.specs.declared.desk.Desk.{Desk};

use crate::areas::is_placed;
use crate::refusal::Refusal;
use std::alloc::Global;
use wi_propagate::Calculator;
use wi_reports::push_content;
use wi_values::Address;

/// Appends the record of a cell: its address and its content.
pub(crate) fn formula<C: Calculator>(
    alloc: Global,
    calculator: &C,
    at: Address,
    out: &mut Vec<u8>,
) -> Result<(), Refusal>
    ensures { (desk : Desk) → let state = state_of (C.stored calculator.now) desk in
        ServesInto (IsStep state (command.Formula (cell at))) result state state
        out.old.items out.new.items }
{
    is_placed(at);
    push_content(alloc, calculator, at, out)?;
    Ok(())
}
