// What late-bound members are looked up by, and which of their arguments are given.
ghost use Rattle.std.specs.Prelude.{◌≡◌, ◌∷◌, ◌+◌, ◌<◌, ◌≤◌, ◌^◌, ℕ, false, if◌then◌else◌, slice_index_or, suc};
ghost use Rattle.vba_meaning.specs.LateBound.{how_many};
ghost use Rattle.bound_project.specs.Pieces.{flags};

use run_host::NamedArguments;

/// What a late-bound member is looked up by: its folded name, how arguments are named, how many there are, and which of
/// them are given: 0 stands for one that isn't, and those of which nothing is said are.
#[derive(Clone, Copy)]
pub struct Sought<'a> {
    pub name: &'a [u16],
    pub names: NamedArguments<'a>,
    pub arguments: u32,
    pub given: &'a [u32],
}

/// Whether the first argument is given, and what is said of the others.
pub fn first_given(given: &[u32]) -> (bool, &[u32])
    ensures { (left : ℕ) → flags (suc left) given.now ≡ result.0 ∷ flags left result.1.now }
{
    match given {
        [] => (true, &[]),
        [first, given @ ..] => (*first != 0, given),
    }
}

/// How many of so many arguments are given.
pub fn how_many(arguments: u32, given: &[u32]) -> u32
    ensures many { result ≡ how_many (flags arguments given.now) }
    ensures few { result ≤ arguments }
{
    if arguments == 0 {
        return 0;
    }
    let (is_given, given) = first_given(given);
    one_more(is_given, how_many(arguments - 1, given))
}

/// One more, where it is given.
fn one_more(is_given: bool, count: u32) -> u32
    requires { count + 1 < 2 ^ 32 }
    ensures { result ≡ (if is_given then 1 else 0) + count }
{
    if is_given { count + 1 } else { count }
}

/// Whether the argument with a number is given: none is past the last one.
#[tactic(auto, using(crate::proofs::Flags::flag_said, crate::proofs::Flags::flag_unsaid, crate::proofs::Flags::flag_past))]
pub fn is_given_at(arguments: u32, given: &[u32], argument: usize) -> bool
    ensures { result ≡ slice_index_or (flags arguments given.now) argument false }
{
    if argument >= arguments as usize {
        return false;
    }
    if argument < given.len() {
        given[argument] != 0
    } else {
        true
    }
}
