//! Programs with their answers, reckoned by hand.
use ice_frac::Frac;
use ice_lp::{LpAnswer, LpEnd, Program, solve};
use std::test::Fail;

/// 2^90
const BIG: i128 = 1 << 90;

/// Whether the fractions have these numerators and denominators.
fn are(fractions: &[Frac], wanted: &[(i128, u128)]) -> bool {
    fractions.len() == wanted.len()
        && fractions.iter().zip(wanted).all(|(fraction, parts)| fraction.num() == parts.0
            && fraction.den() == parts.1)
}

fn is_least(answer: &LpAnswer, wanted: &[(i128, u128)], multipliers: &[(i128, u128)]) -> bool {
    match answer {
        LpAnswer::Least { point, duals } => {
            are(point.as_slice(), wanted) && are(duals.as_slice(), multipliers)
        }
        LpAnswer::Infeasible { mix: _ } => false,
    }
}

fn is_infeasible(answer: &LpAnswer, multipliers: &[(i128, u128)]) -> bool {
    match answer {
        LpAnswer::Least { point: _, duals: _ } => false,
        LpAnswer::Infeasible { mix } => are(mix.as_slice(), multipliers),
    }
}

#[test]
fn least_of_one_row(rt: HostRuntime) -> Result<(), Fail> {
    let mut pivots = 7;
    let mut program = Program::new(rt.alloc(), &[1])?;
    program.row(&[1], 3)?;
    let answer = solve(rt.alloc(), &program, &mut pivots)?;
    assert!(rt; is_least(&answer, &[(3, 1)], &[(1, 1)]));
    assert_eq!(rt; pivots, 8);
    Ok(())
}

#[test]
fn least_of_no_row(rt: HostRuntime) -> Result<(), Fail> {
    let mut pivots = 0;
    let program = Program::new(rt.alloc(), &[0])?;
    let answer = solve(rt.alloc(), &program, &mut pivots)?;
    assert!(rt; is_least(&answer, &[(0, 1)], &[]));
    assert_eq!(rt; pivots, 0);
    Ok(())
}

#[test]
fn none_is_feasible(rt: HostRuntime) -> Result<(), Fail> {
    let mut pivots = 0;
    let mut program = Program::new(rt.alloc(), &[1])?;
    program.row(&[1], 1)?;
    program.row(&[-1], 0)?;
    let answer = solve(rt.alloc(), &program, &mut pivots)?;
    assert!(rt; is_infeasible(&answer, &[(1, 1), (1, 1)]));
    assert_eq!(rt; pivots, 1);
    Ok(())
}

#[test]
fn too_wide(rt: HostRuntime) -> Result<(), Fail> {
    let mut pivots = 0;
    let mut program = Program::new(rt.alloc(), &[BIG, 0])?;
    program.row(&[3, -BIG], 1)?;
    let end = solve(rt.alloc(), &program, &mut pivots).err();
    assert_eq!(rt; end, Some(LpEnd::Wide));
    Ok(())
}
