//! A journal takes in the effect of a firing as it lies.

ghost use Rattle.std.specs.Prelude.{◌≡◌};

use crate::effects::firing_of;
use crate::setting::program_of;
use commit_journal::{Journal, Room};
use ops_text::OutOfMemory;
use rhs_actions::Effect;
use rule_base::Steps;
use std::alloc::Global;
use std::marker::Brand;
use std::sync::ledger::{Blank, Ledger};
use std::test::Fail;

/// The entry of a firing on the element with tag 1, where the next tag is 2, and the next tag after it.
fn told_entry<L: Ledger>(
    alloc: Global,
    blank: Blank,
    effect: &Effect,
) -> Result<String, OutOfMemory>
    requires name { blank.name ≡ L.name }
    requires parts { blank.parts ≡ L.parts }
    requires one { blank.parts ≡ 1 }
{
    let mut steps = Steps::<L>::new(blank);
    let mut journal = Journal::new(alloc, 2);
    let tags = [1];
    journal.reserve(Room::for_effect(&tags, effect))?;
    journal.commit(0, &tags, effect, &mut steps);
    let entries = journal.to_entries(alloc)?;
    format!(in alloc; "{:?}, then {}", entries.as_slice().first(), journal.next())
}

#[test]
fn an_effect_becomes_an_entry(rt: HostRuntime) -> Result<(), Fail> {
    let text = "(literalize a x y)(make a ^x 3)\
                (p r (a) --> (modify 1 ^y 4) (make a ^x 7) (write 8) (halt))";
    let delta = firing_of(rt.alloc(), program_of(rt.alloc(), text)?)?;
    let told = told_entry::<Brand>(rt.alloc(), Blank::new(1), delta.effect())?;
    assert_eq!(rt;
        told.as_str(),
        "Some(Entry { choice: Choice { rule: 0, tags: Sequence { elements: [1] } }, \
        changes: Sequence { elements: [Gone(1), \
        Born(Element { tag: 2, class: 0, values: Sequence { elements: [Int(3), Int(4)] } }), \
        Born(Element { tag: 3, class: 0, values: Sequence { elements: [Int(7), Sym(0)] } })] }, \
        pieces: Sequence { elements: [Put(Int(8))] }, halts: true }), then 4"
    );
    Ok(())
}
