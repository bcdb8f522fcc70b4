//! A law of sessions without commands.
ghost use Rattle.std.specs.Prelude.{◌≡◌, ℕ, ◌≤◌, false, List, length, map};
ghost use Rattle.mg_defs.specs.PlainSession.{plain_text, plain_session, plain_questions};
ghost use Rattle.mg_defs.specs.Lines.{lines};
ghost use Rattle.mg_defs.specs.Session.{heard_session, heard_questions, Question};
ghost use Rattle.mg_defs.specs.declared.session.Hearing.TheVariants.{Questions};
ghost use Rattle.mg_defs.specs.InputLimit.{is_quit};
ghost use Rattle.mg_laws.specs.Words.{question_text};

/// In a session without commands a line prints what it prints where commands are heard as questions,
/// and so does the session; it answers the same questions.
pub fn plain_is_heard()
    ensures line { (reply : List ℕ → List ℕ) (line : List ℕ) → length line ≤ 1024 →
        is_quit line ≡ false →
        plain_text reply line ≡ question_text reply line }
    ensures session { (reply : List ℕ → List ℕ) (input : List ℕ) →
        plain_session reply input ≡ heard_session Questions (λ now. reply) input }
    ensures questions { (input : List ℕ) → plain_questions (lines input)
        ≡ map (λ (q : Question). q.line) (heard_questions Questions input) }
{}
