ghost use Rattle.std.specs.Prelude.{◌≡◌, ◌==◌};
ghost use Rattle.std.specs.List.{list_any};

use type_kinds::List;

// Whether a call's number is in a list of numbers.
pub(crate) fn is_listed(numbers: &List<u32>, number: u64) -> bool
    ensures { result ≡ list_any (λ listed. listed == number) numbers.now }
{
    numbers
        .as_slice()
        .iter()
        .any(|listed| u64::from(*listed) == number)
}
