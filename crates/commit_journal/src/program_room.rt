//! The room that the entry of any firing of a program needs at most, told before anything fires.

ghost use Rattle.std.specs.Prelude.{◌≡◌, IfOk};
ghost use Rattle.rule_base.specs.Sound.{sizes_of};
ghost use Rattle.commit_journal.specs.ProgramRoom.{greatest, room_of, room_of_action, room_of_rule};

use crate::Room;
use ops_text::OutOfMemory;
use rule_base::{Action, Class, Program, Rule};

/// What the entry of a firing of any rule of the program needs at most, whatever elements it fires on.
/// It takes a step for each rule, each action and each class, and no memory. It fails only where so
/// much can't be counted.
pub fn room_of(program: &Program) -> Result<Room, OutOfMemory>
    ensures { IfOk result (λ room. room ≡ room_of program.now) }
{
    let width = widest(program.classes.as_slice());
    let rules = program.rules.as_slice();
    let mut room = Room::none();
    for rule in rules {
        room = room.larger(room_of_rule(width, rule)?);
    }
    Ok(room)
}

/// How many attributes the class has that has the most, or 0 where there is none.
fn widest(classes: &[Class]) -> usize
    ensures { result ≡ greatest (sizes_of classes.now) }
{
    let mut width: usize = 0;
    for class in classes {
        width = width.max(class.attrs.len());
    }
    width
}

/// What the entry of a firing of the rule needs at most, where no element has more values than this.
fn room_of_rule(width: usize, rule: &Rule) -> Result<Room, OutOfMemory>
    ensures { IfOk result (λ room. room ≡ room_of_rule width rule.now) }
{
    let actions = rule.actions.as_slice();
    let mut room = Room {
        entries: 1,
        tags: rule.positives as usize,
        ..Room::none()
    };
    for action in actions {
        room = room.plus(room_of_action(width, action))?;
    }
    Ok(room)
}

/// What one action adds at most.
fn room_of_action(width: usize, action: &Action) -> Room
    ensures { result ≡ room_of_action width action.now }
{
    match action {
        Action::Make { size, .. } => Room {
            elements: 1,
            values: *size as usize,
            ..Room::none()
        },
        Action::Modify { .. } => Room {
            gone: 1,
            elements: 1,
            values: width,
            ..Room::none()
        },
        Action::Remove { at } => Room {
            gone: at.len(),
            ..Room::none()
        },
        Action::Write { items } => Room {
            pieces: items.len(),
            ..Room::none()
        },
        Action::Bind { .. } | Action::Halt => Room::none(),
    }
}
