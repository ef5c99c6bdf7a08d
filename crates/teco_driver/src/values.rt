//! What a line puts into registers before the first command string.
ghost use Rattle.std.specs.Prelude.{◌≡◌, OnOk};
ghost use Rattle.teco_driver.specs.Values.{put_into, with_values};
ghost use Rattle.teco_store.specs.State.{state_of};

use std::alloc::Global;
use teco_cli::{AssignedValue, Assignment};
use teco_core::NoMemory;
use teco_store::{Desk, Editor};

/// Puts a value into its register. A text that no register can hold is refused as one for which there is no memory.
fn put_value(alloc: Global, assignment: &Assignment, editor: &mut Editor) -> Result<(), NoMemory>
    ensures { OnOk result (state_of editor.new
        ≡ record (state_of editor.old) { registers = put_into (state_of editor.old).registers assignment.now.register assignment.now.value }) }
{
    let register = assignment.register;
    let put = match &assignment.value {
        AssignedValue::Text(text) => {
            let text = Vec::from_slice(alloc, text.as_slice())?;
            editor.set_text(register, text)
        }
        AssignedValue::Number(number) => editor.set_number(register, *number),
    };
    match put {
        Ok(()) => Ok(()),
        Err(_) => Err(NoMemory),
    }
}

/// Puts the values into the registers of an editor, in order.
pub fn put_values(alloc: Global, values: &[Assignment], editor: &mut Editor) -> Result<(), NoMemory>
    ensures { OnOk result (state_of editor.new ≡ with_values values.now (state_of editor.old)) }
{
    for assignment in values {
        put_value(alloc, assignment, editor)?;
    }
    Ok(())
}
