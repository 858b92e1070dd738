// Rows by their variables, changes that are lent, many steps at once, and domains.
ghost use Rattle.std.specs.Prelude.{◌≡◌, ◌∷◌, [], true, pos, None, Some, IfOk};

use rsp_multiset::{Changes, Row};
use rsp_terms::{Domain, Same, Term, Text};
use std::alloc::{AllocError, Global};
use std::test::Fail;

// ---- Laws

fn five_added(changes: &mut Changes<u64>, other: &Changes<u64>) -> Result<i64, AllocError>
    requires changes { changes.old ≡ (5, pos 2) ∷ [] }
    requires other { other.now ≡ (6, pos 4) ∷ (5, pos 3) ∷ [] }
    ensures { IfOk result (λ count. count ≡ pos 5) }
{
    changes.add_changes(other)?;
    Ok(changes.count(&5).value())
}

fn six_taken(changes: &mut Changes<u64>, other: &Changes<u64>) -> Result<i64, AllocError>
    requires changes { changes.old ≡ (5, pos 2) ∷ (6, pos 7) ∷ [] }
    requires other { other.now ≡ (6, pos 4) ∷ (5, pos 3) ∷ [] }
    ensures { IfOk result (λ count. count ≡ pos 3) }
{
    changes.subtract_changes(other)?;
    Ok(changes.count(&6).value())
}

fn one_place_kept(row: &Row<u64>, variables: &[usize]) -> Result<Row<u64>, AllocError>
    requires row { row.now ≡ Some 4 ∷ Some 5 ∷ [] }
    requires variables { variables.now ≡ 1 ∷ [] }
    ensures { IfOk result (λ made. made ≡ None ∷ Some 5 ∷ []) }
{
    row.projected(2, variables)
}

fn what_is_kept_is_shown<D: Domain>(
    domain: &mut D,
    term: Term,
    same: &Term,
) -> Result<bool, AllocError>
    requires { term ≡ same.now }
    ensures { IfOk result (λ is. is ≡ true) }
{
    let value = domain.keep(term)?;
    Ok(domain.show(&value) == same)
}

// ---- Cases

fn whole(alloc: Global) -> Result<Row<u64>, AllocError> {
    Ok(Row::new(Vec::from_array(alloc, [Some(4), Some(5)])?))
}

fn is_projected(
    alloc: Global,
    variables: &[usize],
    wanted: &[Option<u64>],
) -> Result<bool, AllocError> {
    let row = whole(alloc)?;
    let made = row.projected(2, variables)?;
    Ok(made.cells() == wanted)
}

fn is_extended(
    alloc: Global,
    variable: usize,
    value: Option<u64>,
    wanted: &[Option<u64>],
) -> Result<bool, AllocError> {
    let row = whole(alloc)?;
    let made = row.extended(2, variable, &value)?;
    Ok(made.cells() == wanted)
}

fn are_cells_at(
    alloc: Global,
    variables: &[usize],
    wanted: &[Option<u64>],
) -> Result<bool, AllocError> {
    let row = whole(alloc)?;
    let made = row.cells_at(variables)?;
    Ok(made.cells() == wanted)
}

#[test]
fn rows_are_cut_and_extended(rt: HostRuntime) -> Result<(), Fail> {
    let alloc = rt.alloc();
    assert!(rt; is_projected(alloc, &[1], &[None, Some(5)])?);
    assert!(rt; is_projected(alloc, &[1, 7, 1, 0], &[Some(4), Some(5)])?);
    assert!(rt; is_extended(alloc, 0, Some(9), &[Some(9), Some(5)])?);
    assert!(rt; is_extended(alloc, 1, None, &[Some(4), None])?);
    assert!(rt; is_extended(alloc, 7, Some(9), &[Some(4), Some(5)])?);
    assert!(rt; are_cells_at(alloc, &[1, 7], &[Some(5), None])?);
    assert!(rt; are_cells_at(alloc, &[1, 1], &[Some(5), Some(5)])?);
    let unbound: Row<u64> = Row::unbound(alloc, 2)?;
    assert!(rt; unbound.cells() == [None, None].as_slice());
    Ok(())
}

fn entries(alloc: Global, of: &[(u64, i64)]) -> Result<Changes<u64>, AllocError> {
    let mut changes = Changes::new(alloc);
    for (value, count) in of {
        changes.alter(*value, *count)?;
    }
    Ok(changes)
}

fn added(
    alloc: Global,
    one: &[(u64, i64)],
    other: &[(u64, i64)],
) -> Result<Changes<u64>, AllocError> {
    let mut changes = entries(alloc, one)?;
    changes.add_changes(&entries(alloc, other)?)?;
    Ok(changes)
}

fn taken_away(
    alloc: Global,
    one: &[(u64, i64)],
    other: &[(u64, i64)],
) -> Result<Changes<u64>, AllocError> {
    let mut changes = entries(alloc, one)?;
    changes.subtract_changes(&entries(alloc, other)?)?;
    Ok(changes)
}

fn joined(
    alloc: Global,
    one: &[(u64, i64)],
    other: &[(u64, i64)],
) -> Result<Changes<u64>, AllocError> {
    let mut changes = entries(alloc, one)?;
    changes.join_changes(entries(alloc, other)?)?;
    Ok(changes)
}

#[test]
fn lent_changes_are_added(rt: HostRuntime) -> Result<(), Fail> {
    let changes = added(rt.alloc(), &[(5, 2), (7, -1)], &[(5, 3), (6, 4)])?;
    for (value, count) in [(5, 5), (6, 4), (7, -1)] {
        assert_eq!(rt; changes.count(&value).value(), count);
    }
    assert_eq!(rt; changes.cardinality()?.value(), 8);
    assert!(rt; !changes.is_empty());
    Ok(())
}

#[test]
fn lent_changes_are_taken_away(rt: HostRuntime) -> Result<(), Fail> {
    let changes = taken_away(rt.alloc(), &[(5, 2), (7, -1)], &[(5, 2), (7, -1)])?;
    assert!(rt; changes.is_empty());
    Ok(())
}

#[test]
fn an_empty_change_takes_the_other(rt: HostRuntime) -> Result<(), Fail> {
    let changes = joined(rt.alloc(), &[], &[(5, 3), (6, 4)])?;
    for (value, count) in [(5, 3), (6, 4), (7, 0)] {
        assert_eq!(rt; changes.count(&value).value(), count);
    }
    Ok(())
}

#[test]
fn terms_show_themselves(rt: HostRuntime) -> Result<(), Fail> {
    let term = Term::Iri(Text::new(rt.alloc(), "a:b")?);
    let mut domain = Same::new();
    assert!(rt; what_is_kept_is_shown(&mut domain, term.share()?, &term)?);
    Ok(())
}
