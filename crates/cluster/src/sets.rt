// Sets of servers, as masks: bit i is server i; and which servers vote.
ghost use Rattle.std.specs.Prelude.{◌≡◌};
ghost use Rattle.cluster.specs.Sets.{member, members_of, is_within, is_apart, votes, voters, is_majority};

// How many bits a mask has.
const BITS: usize = 8;

// Whether server i is in the set.
pub fn is_member(set: u8, i: usize) -> bool
    ensures { result ≡ member set i }
{
    i < BITS && (set >> i) % 2 == 1
}

// How many members the set has.
pub fn members(set: u8) -> usize
    ensures { result ≡ members_of set }
{
    u8::count_ones(set) as usize
}

// Whether every member is below n.
pub fn within(set: u8, n: usize) -> bool
    ensures { result ≡ is_within set n }
{
    BITS <= n || set >> n == 0
}

// Whether no member is a follower.
pub fn apart(set: u8, followers: u8) -> bool
    ensures { result ≡ is_apart set followers }
{
    (0..BITS).all(|i| !(is_member(set, i) && is_member(followers, i)))
}

// Whether server i votes: it is no follower.
pub fn does_vote(followers: u8, i: usize) -> bool
    ensures { result ≡ votes followers i }
{
    !is_member(followers, i)
}

// How many of the first n servers vote.
pub fn voters(n: usize, followers: u8) -> usize
    ensures { result ≡ voters n followers }
{
    (0..n).filter(|i| does_vote(followers, *i)).count()
}

// Whether twice the number of members exceeds the number of voters.
pub fn majority(set: u8, voting: usize) -> bool
    ensures { result ≡ is_majority set voting }
{
    voting < members(set) * 2
}
