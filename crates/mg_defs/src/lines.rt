//! Laws of the lines of an input.
ghost use Rattle.std.specs.Prelude.{◌≡◌, ℕ, ◌<◌, List, [], ◌∷◌, ◌++◌, length};
ghost use Rattle.mg_defs.specs.Lines.{lines, HasNoEnd};
ghost use Rattle.mg_defs.specs.Session.{ends};
ghost use Rattle.mg_defs.specs.InputLimit.{is_quit};
ghost use Rattle.mg_defs.specs.declared.session.Settings.{Settings};

/// The lines of an input, from its front: a line ends at each byte 10, and the last one at the
/// input's end where it isn't empty.
pub fn lines_of()
    ensures none { lines [] ≡ [] }
    ensures ended { (line rest : List ℕ) → HasNoEnd line →
        lines (line ++ (10 ∷ rest)) ≡ line ∷ lines rest }
    ensures last { (line : List ℕ) → HasNoEnd line → 0 < length line → lines line ≡ line ∷ [] }
{}

/// Whether a line ends the session does not depend on the settings.
pub fn quit_always()
    ensures { (now : Settings) (line : List ℕ) → ends now line ≡ is_quit line }
{}
