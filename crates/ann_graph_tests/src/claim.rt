ghost use Rattle.std.specs.Prelude.{◌≡◌, true, IfOk};
ghost use Rattle.ann_claim.specs.Claims.{newcomer_of};

use ann_claim::{Claimer, Claims};
use std::alloc::{AllocError, Global};
use std::test::Fail;
use std::thread;

// Draws until there is no number left, and gives the numbers in the order in which they came.
fn draw_all(
    alloc: Global,
    claims: &Claims,
    mut claimer: Claimer,
) -> Result<(Claimer, Vec<u32>), AllocError>
    requires { claimer ≡ newcomer_of claims.now }
    ensures lot { IfOk result (λ r. r.0.lot ≡ claims.now) }
    ensures ended { IfOk result (λ r. r.0.ended ≡ true) }
    ensures drawn { IfOk result (λ r. r.1.items ≡ r.0.drawn) }
{
    let mut drawn = Vec::new(alloc);
    while let Some(number) = claims.draw(&mut claimer) {
        drawn.push(number)?;
    }
    Ok((claimer, drawn))
}

#[test]
fn two_claimers_draw_three_numbers(rt: HostRuntime) -> Result<(), Fail> {
    let (claims, mut claimers) = Claims::new(rt.alloc(), 3, 2)?;
    let first = claims.draw(&mut claimers[0]);
    let second = claims.draw(&mut claimers[1]);
    let third = claims.draw(&mut claimers[0]);
    let fourth = claims.draw(&mut claimers[0]);
    let fifth = claims.draw(&mut claimers[1]);
    assert!(rt; fourth == None && fifth == None);
    claims.close(claimers);
    assert!(rt; first == Some(0) && second == Some(1) && third == Some(2));
    Ok(())
}

#[test]
fn no_number_is_drawn_below_zero(rt: HostRuntime) -> Result<(), Fail> {
    let (claims, mut claimers) = Claims::new(rt.alloc(), 0, 1)?;
    assert!(rt; claims.draw(&mut claimers[0]) == None);
    claims.close(claimers);
    Ok(())
}

// Whether the place of each number is the number.
fn are_counted(numbers: &[u32]) -> bool {
    for (place, number) in numbers.iter().enumerate() {
        if *number as usize != place {
            return false;
        }
    }
    true
}

// Whether these are the numbers below 1000, each once.
fn are_each_once(alloc: Global, drawn: &[u32], others: &[u32]) -> Result<bool, AllocError> {
    let mut numbers = drawn.to_vec(alloc)?;
    numbers.extend_from_slice(others)?;
    numbers.sort()?;
    Ok(numbers.len() == 1000 && are_counted(&numbers))
}

#[test]
fn two_threads_draw_each_number_once(rt: HostRuntime) -> Result<(), Fail> {
    let alloc = rt.alloc();
    let (claims, mut claimers) = Claims::new(alloc, 1000, 2)?;
    let source = &claims;
    let (Some(one), Some(other)) = (claimers.pop(), claimers.pop()) else {
        unreachable!()
    };
    let (one, other) = thread::join(
        &rt,
        move || draw_all(alloc, source, one),
        move || draw_all(alloc, source, other),
    );
    let (first, drawn) = one?;
    let (second, others) = other?;
    let once = are_each_once(alloc, &drawn, &others)?;
    claimers.push(first)?;
    claimers.push(second)?;
    claims.close(claimers);
    assert!(rt; once);
    Ok(())
}
