// A set of pairs of numbers below 128, as a table of marks with a row for each first number.
ghost use Rattle.std.specs.Prelude.{◌≡◌, ℕ, ◌<◌, Bool, false, ◌&&◌, ◌||◌, ◌==◌};
ghost use Rattle.sheets.specs.Tables.{Shows};

#[derive(Drop)]
pub(crate) struct Marks {
    pub(crate) rows: [[bool; 128]; 128],
}

impl Marks {
    pub(crate) fn new() -> Marks
        ensures { Shows result.rows (λ a b. false) }
    {
        Marks {
            rows: [[false; 128]; 128],
        }
    }

    pub(crate) fn has(&self, a: u8, b: u8) -> bool
        requires { (a < 128) × (b < 128) }
        ensures { (test : ℕ → ℕ → Bool) → Shows self.now.rows test → result ≡ test a b }
    {
        self.rows[a as usize][b as usize]
    }

    #[tactic(auto, using(crate::proofs::Marked::one_marked))]
    pub(crate) fn add(&mut self, a: u8, b: u8)
        requires { (a < 128) × (b < 128) }
        ensures { (test : ℕ → ℕ → Bool) → Shows self.old.rows test → Shows self.new.rows (λ x y. (a == x && b == y) || test x y) }
    {
        let row = &mut self.rows[a as usize];
        row[b as usize] = true;
    }
}
