// What every kind of group offers, and the laws that it shows.
ghost use Rattle.std.specs.Prelude.{◌≡◌, ◌↔◌, ℕ, if◌then◌else◌, nat_lt, IsTrue};
ghost use Rattle.groups.specs.Tables.{Table, Laws, OddOrder, Opposite, counted, difference};

pub trait Group {
    // The letter of the kind, which the page prints. No enum lists the letters: a kind from elsewhere has its own.
    const LETTER: u8;

    ghost LETTER: { ℕ };

    // What a value means: its order and its table of sums.
    ghost table: { Self → Table };

    fn order(&self) -> u8
        ensures { result ≡ (table self.now).order };

    // The sum of two numbers. An operand of the order or more counts as 0.
    fn sum(&self, a: u8, b: u8) -> u8
        ensures { result ≡ (table self.now).add (counted (table self.now) a) (counted (table self.now) b) };

    // The number whose sum with a is 0. An operand of the order or more counts as 0.
    fn opposite(&self, a: u8) -> u8
        ensures { Opposite (table self.now) (counted (table self.now) a) result };

    // The letter of the kind, of a value at hand.
    fn kind_letter(&self) -> u8
        ensures { result ≡ LETTER }
    {
        Self::LETTER
    }

    ghost laws: { (g : Self) → Laws (table g) };
}

// The difference a - b. An operand of the order or more counts as 0.
pub fn minus<G: Group>(group: &G, a: u8, b: u8) -> u8
    ensures { result ≡ difference (G.table group.now) (counted (G.table group.now) a) (counted (G.table group.now) b) }
{
    group.sum(a, group.opposite(b))
}

// The number that an operand stands for in a group of order n: an operand of n or more counts as 0.
pub fn count(a: u8, n: u8) -> u8
    ensures { result ≡ (if nat_lt a n then a else 0) }
{
    if a < n { a } else { 0 }
}

// Whether a number is the order of a group that is made: odd and from 3 to 127.
pub fn is_order(n: u8) -> bool
    ensures { IsTrue result ↔ OddOrder n }
{
    n % 2 == 1 && (3..=127).contains(&n)
}
