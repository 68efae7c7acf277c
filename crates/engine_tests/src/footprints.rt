//! Footprints, which rules may interfere, and parts of rules, of a program made from its text. The rows are the worked
//! examples of the definitions.

ghost use Rattle.std.specs.Prelude.{◌^◌, ◌<◌, length};
ghost use Rattle.rule_base.specs.Sound.{IsSound};

use crate::setting::{opening_of, program_of};
use interference::{
    Splits, admits, amount, compatible, first_busy, footprint, may_interfere, parts,
};
use ops_text::{OutOfMemory, Sequence};
use rule_base::{Busy, Candidate, Choice, ElementView, Elements, Mode, Program};
use std::alloc::Global;
use std::test::Fail;

const SIX_RULES: &str = "(literalize item key)(literalize done key)\
    (make item ^key 7)(make item ^key 8)\
    (p once (item ^key <k>) -(done ^key <k>) --> (make done ^key <k>))\
    (p copy (item ^key <k>) --> (make done ^key <k>))\
    (p see (item) -(done) -->)\
    (p drop (item) --> (remove 1))\
    (p clear (done) --> (remove 1))\
    (p touch (done) --> (modify 1))";

/// The candidate of the rule with number 0 for an element.
fn candidate_for(alloc: Global, element: ElementView<'_>) -> Result<Candidate, OutOfMemory> {
    let mut tags = Sequence::new(alloc);
    tags.push(element.tag)?;
    let mut elements = Elements::new(alloc);
    elements.push(element)?;
    Ok(Candidate {
        choice: Choice { rule: 0, tags },
        elements,
    })
}

/// The footprint of a candidate that fits the program.
fn footprint_of(
    alloc: Global,
    program: &Program,
    candidate: &Candidate,
) -> Result<Vec<(u32, Mode)>, Fail>
    requires { IsSound program.now }
{
    if !candidate.fits(program) {
        return Err(Fail::new("the candidate doesn't fit"));
    }
    let splits = Splits::new(alloc, program)?;
    let mut locks = Vec::new(alloc);
    footprint(program, &splits, candidate, &mut locks)?;
    Ok(locks)
}

/// The footprint of the rule with number 0 for an element.
fn told_footprint(
    alloc: Global,
    program: &Program,
    element: ElementView<'_>,
) -> Result<String, Fail>
    requires { IsSound program.now }
{
    let candidate = candidate_for(alloc, element)?;
    let locks = footprint_of(alloc, program, &candidate)?;
    Ok(format!(in alloc; "{locks:?}")?)
}

/// The footprints for all elements of the program's opening memory.
fn told_footprints(alloc: Global, program: &Program) -> Result<String, Fail>
    requires sound { IsSound program.now }
    requires few_makes { length program.now.makes < 2 ^ 32 }
{
    let elements = opening_of(alloc, program)?;
    let mut text = String::new(alloc);
    for at in 0..elements.len() {
        text.push_str(&told_footprint(alloc, program, elements.at(at))?)?;
    }
    Ok(text)
}

#[test]
fn a_key_has_its_region(rt: HostRuntime) -> Result<(), Fail> {
    let program = program_of(rt.alloc(), SIX_RULES)?;
    let told = told_footprints(rt.alloc(), &program)?;
    // a region is watched by the negated condition element and grown by the make, and so owned
    assert_eq!(rt;
        told.as_str(),
        "[(1, Watch), (1047, Own)][(2, Watch), (1048, Own)]"
    );
    Ok(())
}

#[test]
fn only_watches_or_only_makes_go_together(rt: HostRuntime) {
    let modes = [Mode::Watch, Mode::Grow, Mode::Own];
    let want = [
        [true, false, false],
        [false, true, false],
        [false, false, false],
    ];
    for at in 0..3 {
        let row = modes.map(|other| compatible(modes[at], other));
        assert_eq!(rt; row, want[at], "{:?}", modes[at]);
    }
}

#[test]
fn words_leave_room_for_what_goes_together(rt: HostRuntime) {
    let modes = [Mode::Watch, Mode::Grow, Mode::Own];
    for one in modes {
        let room = modes.map(|other| admits(amount(one), other));
        let want = modes.map(|other| compatible(one, other));
        assert_eq!(rt; room, want, "{one:?}");
    }
    let footprint = [(0, Mode::Watch), (1, Mode::Grow), (2, Mode::Own)];
    let rows = [
        ([0, 0, 0], None),
        ([4095, 4095 << 20, 0], None),
        ([4095, (4095 << 20) + 1, 1], Some((1, (4095 << 20) + 1))),
        ([1 << 40, 1 << 40, 0], Some((0, 1 << 40))),
        ([0, 0, 1], Some((2, 1))),
    ];
    for (words, want) in rows {
        let busy = first_busy(words.as_slice(), footprint.as_slice());
        let want = want.map(|(lock, word)| Busy { lock, word });
        assert_eq!(rt; busy, want, "{words:?}");
    }
}

#[test]
fn rules_are_in_each_others_way(rt: HostRuntime) -> Result<(), Fail> {
    let program = program_of(rt.alloc(), SIX_RULES)?;
    let rows = [
        // a rule that watches a class and grows it is in its own way
        (0, 0, true),
        // two that grow go together, and so do two that watch
        (1, 1, false),
        (2, 2, false),
        (1, 2, true),
        (2, 1, true),
        // what one removes the other matches
        (3, 1, true),
        (1, 3, true),
        (3, 3, true),
        // elements of another class
        (4, 1, false),
        // nothing that is removed makes a negated condition element fail, but what a modify makes may
        (4, 2, false),
        (5, 2, true),
        (5, 1, false),
    ];
    for (a, b, want) in rows {
        assert!(rt; program.rules.len() == 6 && a < 6 && b < 6);
        assert_eq!(rt; may_interfere(&program, a, b), want, "{a} and {b}");
    }
    Ok(())
}

/// The numbers of the rules of each part, in a line.
fn told(alloc: Global, shared: &[Sequence<u32>]) -> Result<String, OutOfMemory> {
    let mut text = String::new(alloc);
    for part in shared {
        text.push_str(&format!(in alloc; "{:?}", part.as_slice())?)?;
    }
    Ok(text)
}

#[test]
fn rules_are_shared_out(rt: HostRuntime) -> Result<(), Fail> {
    let program = program_of(rt.alloc(), SIX_RULES)?;
    let rows = [
        (1, "[0, 1, 2, 3, 4, 5]"),
        (2, "[0, 2, 4][1, 3, 5]"),
        (7, "[0][1][2][3][4][5][]"),
    ];
    for (count, want) in rows {
        assert!(rt; 1 <= count && count <= 64);
        let shared = parts(rt.alloc(), &program, count)?;
        assert_eq!(rt; told(rt.alloc(), shared.as_slice())?.as_str(), want);
    }
    Ok(())
}
