// Modules that are analysed together.
ghost use Rattle.std.specs.Prelude.{◌≡◌, ℕ, ◌<◌, ◌≤◌, ◌^◌, Some, length, map, slice_get, OnOk, IfErr};
ghost use Rattle.core_scope.specs.Checked.{module_of};
ghost use Rattle.core_scope.specs.Sets.{StandsEarlier, FirstDuplicate};
ghost use Rattle.core_scope.specs.declared.fault.SetFault.TheVariants.{DuplicateModule};

use crate::checked::AsChecked;
use crate::fault::SetFault;
use type_kinds::Atom;

/// Whether modules have distinct names. `DuplicateModule` has the least position whose module's name
/// stands earlier, and the earliest position of that name. Takes no memory.
pub fn check_set<S: AsChecked>(sources: &[S]) -> Result<(), SetFault>
    requires few { length sources.now < 2 ^ 32 }
    ensures distinct { OnOk result ((j : ℕ) → j < length sources.now → StandsEarlier (map (λ s. (module_of (S.stands_for s)).name) sources.now) j
        → ⊥) }
    ensures duplicate { IfErr result (λ fault. (first : ℕ) × (second : ℕ) × (fault ≡ DuplicateModule first second)
        × FirstDuplicate (map (λ s. (module_of (S.stands_for s)).name) sources.now) first second) }
{
    let mut second = 0;
    while second < sources.len() {
        let first = first_of_name(sources, second);
        if first < second {
            return Err(SetFault::DuplicateModule {
                first: first as u32,
                second: second as u32,
            });
        }
        second += 1;
    }
    Ok(())
}

// The name of the module at a position.
fn name_at<S: AsChecked>(sources: &[S], at: usize) -> &Atom
    requires { at < length sources.now }
    ensures { slice_get (map (λ s. (module_of (S.stands_for s)).name) sources.now) at ≡ Some result.now }
{
    let source = &sources[at];
    &source.checked().module().name
}

// The earliest position of the name that stands at a position, or that position.
fn first_of_name<S: AsChecked>(sources: &[S], second: usize) -> usize
    requires { second < length sources.now }
    ensures same { slice_get (map (λ s. (module_of (S.stands_for s)).name) sources.now) result
        ≡ slice_get (map (λ s. (module_of (S.stands_for s)).name) sources.now) second }
    ensures within { result ≤ second }
    ensures earliest { (i : ℕ) → i < result → slice_get (map (λ s. (module_of (S.stands_for s)).name) sources.now) i
        ≡ slice_get (map (λ s. (module_of (S.stands_for s)).name) sources.now) second → ⊥ }
{
    let name = name_at(sources, second);
    let mut at = 0;
    while at < second {
        if name_at(sources, at).is(name) {
            return at;
        }
        at += 1;
    }
    second
}
