// The switches of a capture (02, e): the steps at which the sent K1 differs from the step before. Sent K1 bytes alone are
// looked at, so no settings are taken.
#![tactic(auto)]

mod capture;
mod change;
mod list;

ghost use Rattle.std.specs.Prelude.{◌≡◌};
ghost use Rattle.basics.specs.Answer.{Answers};
ghost use Rattle.switches.specs.Extend.{extending_told, extending_case, extending, extended};
ghost use Rattle.switches.specs.LastChange.{looking_told, looking_case, looking};

use crate::capture::rows_of;
use crate::change::{over_room, put_changes};
use crate::list::{is_list_of, lists};
use basics::refusal::Refusal;

// Lists the changes of the whole capture, and answers how many they are. The first `listed` steps are listed already, in the
// first `count` entries of the table: they are walked to check the list, and the others to list them, so that each is looked at
// once; in a table with fewer entries than there are steps left, the others are counted before. `count` stands beside the table as
// in `chainplater_switches`, and may be above its length.
pub fn extend(capture: &[u8], listed: u16, count: u16, table: &mut [u16]) -> Result<u16, Refusal>
    ensures answers { Answers extending_told extending_case (extending capture.now listed count table.old) result }
    ensures table_after { table.new ≡ extended capture.now listed count table.old }
{
    let listed = usize::from(listed);
    let count = usize::from(count);
    let rows = rows_of(capture, listed)?;
    if !lists(table, count, &rows[..listed]) {
        return Err(Refusal::SwitchesOther);
    }
    if over_room(rows, listed, count, table.len()) {
        return Err(Refusal::SwitchesRoom);
    }
    let number = put_changes(rows, listed, count, table);
    Ok(number as u16)
}

// The last change at or before a step, if there is one. The whole list is checked, also behind the step; it rises, so that
// halving finds how many of its entries are not above the step.
pub fn last_change(capture: &[u8], list: &[u16], step: u16) -> Result<Option<u16>, Refusal>
    ensures { Answers looking_told looking_case (looking capture.now list.now step) result }
{
    let rows = rows_of(capture, usize::from(step) + 1)?;
    if !is_list_of(list, rows) {
        return Err(Refusal::SwitchesOther);
    }
    let passed = list.partition_point(|change| *change <= step);
    Ok(list[..passed].last().copied())
}
