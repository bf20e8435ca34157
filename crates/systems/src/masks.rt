// Sets of states and of actions, held as 64-bit numbers: bit i stands for number i.
ghost use Rattle.std.specs.Prelude.{◌≡◌, ℕ, ◌<◌, Bool, ◌&&◌, ◌||◌, ◌==◌, nat_lt};
ghost use Rattle.systems.specs.Sets.{has, set_of, some_of, contained};

pub fn contains(set: u64, i: u8) -> bool
    ensures { result ≡ has set i }
{
    i < 64 && (set >> i) & 1 == 1
}

// the set with i added; a number that the set cannot hold changes nothing
pub fn insert(set: u64, i: u8) -> u64
    ensures { result ≡ set_of 64 (λ j. has set j || j == i) }
{
    if i < 64 { set | (1 << i) } else { set }
}

// the set with i added where the test passes
pub fn insert_if(set: u64, i: u8, test: bool) -> u64
    ensures { result ≡ set_of 64 (λ j. has set j || (test && j == i)) }
{
    if test { insert(set, i) } else { set }
}

// the set of the numbers below n
pub fn all_below(n: u8) -> u64
    ensures { result ≡ set_of 64 (λ i. nat_lt i n) }
{
    if n < 64 { (1 << n) - 1 } else { u64::MAX }
}

// The set of the numbers below n that pass the test, whichever test T it is that the closure answers. It is asked once of each.
pub fn set_where<F: Fn(u8) -> bool>(n: u8, test: F) -> u64
    requires { (i : ℕ) → i < n → F.pre test i }
    ensures { (T : ℕ → Bool) → ((i : ℕ) (b : Bool) → i < n → F.post test i b → b ≡ T i) → result ≡ set_of 64 (λ i. nat_lt i n && T i) }
{
    let mut set = 0;
    for i in 0..n {
        set = insert_if(set, i, test(i));
    }
    set
}

// the actions in the set, which are below 32
pub fn as_actions(set: u64) -> u32
    ensures { result ≡ set_of 32 (has set) }
{
    (set & 0xffff_ffff) as u32
}

// whether the two sets have a member in common
pub fn meets(set: u64, other: u64) -> bool
    ensures { result ≡ some_of 64 (λ i. has set i && has other i) }
{
    set & other != 0
}

// whether each member of the set is a member of the other
pub fn is_within(set: u64, other: u64) -> bool
    ensures { result ≡ contained 64 set other }
{
    set & other == set
}
