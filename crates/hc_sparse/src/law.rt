//! Laws of stretches: each is the contract of a function that does nothing.
ghost use Rattle.std.specs.Prelude.{◌≡◌, ◌≢◌, ◌↔◌, ◌<◌, ◌≤◌, ◌+◌, ℕ, List, length, IfSome, Some, None};
ghost use Rattle.hc_sparse.specs.Cells.{Cells, Cell, AreAbsent, AreOf, cells_with};
ghost use Rattle.hc_sparse.specs.Stretch.{stretch, joined_stretch, IsLongest};
ghost use Rattle.hc_sparse.specs.declared.run.Run.{Run};

/// What a stretch is: bytes of one exchange without a gap, as many as stand there and are wanted.
pub fn a_stretch_is_the_longest()
    ensures absent { (f : Cells) (p want : ℕ) → (stretch f p want ≡ None) ↔ (f p ≡ None) }
    ensures longest { (f : Cells) (p want : ℕ) → 0 < want →
        IfSome (stretch f p want) (λ run. IsLongest f p want run) }
    ensures only { (f : Cells) (p want : ℕ) (run : Run) →
        IsLongest f p want run → stretch f p want ≡ Some run }
{}

/// How a put changes stretches: those that begin behind it or are of another exchange stay, and
/// those of its exchange that reach it go on with its bytes, and then with what stood behind them.
pub fn a_put_lengthens_what_reaches_it()
    ensures behind { (f : Cells) (at x : ℕ) (bytes : List ℕ) (p want : ℕ) →
        at + length bytes ≤ p →
        stretch (cells_with at x bytes f) p want ≡ stretch f p want }
    ensures other { (f : Cells) (at x : ℕ) (bytes : List ℕ) (p want : ℕ) (cell : Cell) →
        AreAbsent f at (at + length bytes) → f p ≡ Some cell → cell.x ≢ x →
        stretch (cells_with at x bytes f) p want ≡ stretch f p want }
    ensures reaches { (f : Cells) (at x : ℕ) (bytes : List ℕ) (p want : ℕ) →
        0 < length bytes → p ≤ at → AreOf x f p at →
        stretch (cells_with at x bytes f) p want ≡ Some (joined_stretch f at x bytes p want) }
{}
