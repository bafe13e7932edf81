//! What the words of this crate's contracts mean: laws about definitions, each the contract of a
//! function that does nothing.
ghost use Rattle.std.specs.Prelude.{◌≡◌, List, ℕ};
ghost use Rattle.go_chains.specs.declared.change.Change.{Change};
ghost use Rattle.go_chains.specs.Rewound.{Played, all_rewound};

/// Whatever was played, putting all plays back from the last to the first gives the first cells.
pub fn rewinds_all()
    ensures { (first last : List ℕ) (plays : List (List Change)) → Played first plays last
        → all_rewound last plays ≡ first }
{}
