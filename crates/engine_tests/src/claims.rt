//! Claims that stand, and what they leave room for on their locks.

ghost use Rattle.rule_base.specs.declared.lock.Mode.{Mode};
ghost use Rattle.standing_claims.specs.Amounts.{IsFootprint};

use ops_text::{OutOfMemory, Sequence};
use rule_base::{Busy, Candidate, Choice, Elements, Mode};
use standing_claims::{Claim, Standing};
use std::alloc::Global;
use std::test::Fail;

/// The choice of the rule with number 0 for the element with this tag.
fn choice_for(alloc: Global, tag: u64) -> Result<Choice, OutOfMemory> {
    let mut tags = Sequence::new(alloc);
    tags.push(tag)?;
    Ok(Choice { rule: 0, tags })
}

/// Adds a claim of that choice, for which there is room, and answers its number.
fn claim(
    alloc: Global,
    standing: &mut Standing,
    tag: u64,
    footprint: &[(u32, Mode)],
) -> Result<u64, Fail>
    requires { IsFootprint footprint.now }
{
    if standing.is_full() {
        return Err(Fail::new("full"));
    }
    let candidate = Candidate {
        choice: choice_for(alloc, tag)?,
        elements: Elements::new(alloc),
    };
    let locks = Vec::from_slice(alloc, footprint)?;
    standing.reserve()?;
    Ok(standing.add(candidate, locks))
}

/// Two claims, of which the first owns a lock, and the second watches one and grows another.
fn two_claims(alloc: Global) -> Result<Standing, Fail> {
    let mut standing = Standing::new(alloc);
    let first = claim(alloc, &mut standing, 7, &[(3, Mode::Own)])?;
    let second = claim(
        alloc,
        &mut standing,
        9,
        &[(4, Mode::Watch), (1040, Mode::Grow)],
    )?;
    if first != 1 || second != 2 {
        return Err(Fail::new("not the numbers 1 and 2"));
    }
    Ok(standing)
}

/// The number of a claim, and the tags of its choice.
fn told_claim(alloc: Global, claim: &Claim) -> Result<String, OutOfMemory> {
    let tags = claim.candidate.choice.tags.as_slice();
    format!(in alloc; "{} of {tags:?} ", claim.number)
}

/// The claims that stand, one by place after another, how many there are, and how many were given a number.
fn told(alloc: Global, standing: &Standing) -> Result<String, OutOfMemory> {
    let mut text = String::new(alloc);
    for at in 0..standing.len() {
        text.push_str(&told_claim(alloc, standing.claim_at(at))?)?;
    }
    format!(in alloc; "{text}: {} of {}", standing.len(), standing.given())
}

/// What is found by the numbers 1 and 2, and by the choices for the tags 7 and 9.
fn found(alloc: Global, standing: &Standing) -> Result<String, OutOfMemory> {
    let first = standing.with_number(1).map(|claim| claim.number);
    let second = standing.with_number(2).map(|claim| claim.number);
    let seven = standing.of_choice(&choice_for(alloc, 7)?);
    let nine = standing.of_choice(&choice_for(alloc, 9)?);
    format!(in alloc; "{first:?}, {second:?}, {seven:?}, {nine:?}")
}

#[test]
fn claims_come_and_go(rt: HostRuntime) -> Result<(), Fail> {
    let mut standing = two_claims(rt.alloc())?;
    assert!(rt; !standing.is_empty() && !standing.is_full());
    assert_eq!(rt;
        told(rt.alloc(), &standing)?.as_str(),
        "1 of [7] 2 of [9] : 2 of 2"
    );
    assert_eq!(rt;
        found(rt.alloc(), &standing)?.as_str(),
        "Some(1), Some(2), Some(1), Some(2)"
    );
    assert!(rt; standing.remove(1));
    assert!(rt; !standing.remove(1));
    assert_eq!(rt; told(rt.alloc(), &standing)?.as_str(), "2 of [9] : 1 of 2");
    assert_eq!(rt;
        found(rt.alloc(), &standing)?.as_str(),
        "None, Some(2), None, Some(2)"
    );
    standing.clear();
    assert!(rt; standing.is_empty());
    assert_eq!(rt; told(rt.alloc(), &standing)?.as_str(), ": 0 of 0");
    let next = claim(rt.alloc(), &mut standing, 9, &[(3, Mode::Own)])?;
    assert_eq!(rt; next, 1);
    Ok(())
}

#[test]
fn their_locks_are_busy(rt: HostRuntime) -> Result<(), Fail> {
    let both = two_claims(rt.alloc())?;
    let mut second = two_claims(rt.alloc())?;
    assert!(rt; second.remove(1));
    // what is busy where both claims stand, and where the second stands alone
    let rows = [
        ((3, Mode::Own), (5, Mode::Own), Some((3, 1 << 40)), None),
        ((2, Mode::Own), (3, Mode::Watch), Some((3, 1 << 40)), None),
        (
            (3, Mode::Grow),
            (4, Mode::Own),
            Some((3, 1 << 40)),
            Some((4, 1)),
        ),
        (
            (4, Mode::Watch),
            (1040, Mode::Own),
            Some((1040, 1 << 20)),
            Some((1040, 1 << 20)),
        ),
        ((4, Mode::Watch), (1040, Mode::Grow), None, None),
    ];
    for (one, other, of_both, of_second) in rows {
        assert!(rt; one.0 < 5120 && other.0 < 5120);
        let footprint = [one, other];
        let of_both = of_both.map(|(lock, word)| Busy { lock, word });
        let of_second = of_second.map(|(lock, word)| Busy { lock, word });
        assert_eq!(rt; both.busy(&footprint), of_both, "{footprint:?}");
        assert_eq!(rt; second.busy(&footprint), of_second, "{footprint:?}");
    }
    Ok(())
}
