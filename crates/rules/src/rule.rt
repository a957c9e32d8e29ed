ghost use Rattle.std.specs.Prelude.{◌≡◌, ℕ, Bool, List, Option};
ghost use Rattle.rules.specs.Laws.{Exact, Inside};
ghost use Rattle.rules.specs.declared.meaning.Meaning.{Meaning};
ghost use Rattle.rules.specs.declared.meaning.Place.{Place};
ghost use Rattle.rules.specs.declared.meaning.Properties.{Properties};

use crate::meaning::{Meaning, Properties};

// A way to read lines. What a line means is one function of the line.
pub trait LineRule {
    // Does a stray end what is open?
    const STRAYS_END: bool;

    ghost STRAYS_END: { Bool };

    // Are names lowered before they are looked up?
    const NAMES_LOWERED: bool;

    ghost NAMES_LOWERED: { Bool };

    ghost meaning: { List ℕ → Meaning };

    // How a line must look that opens a name at a place, with or without a text.
    ghost form: { List ℕ → Place → Option ℕ → Type 0 };

    // Which of the other lines continue.
    ghost resumes: { List ℕ → Bool };

    fn ask(&self, line: &[u8]) -> Meaning
        ensures { result ≡ meaning line.now };

    ghost inside: { (line : List ℕ) → Inside line (meaning line) };

    ghost exact: { Exact form resumes meaning };

    // The two constants, for code over any rule.
    final fn properties() -> Properties
        ensures { result ≡ record { strays_end = STRAYS_END; names_lowered = NAMES_LOWERED } }
    {
        Properties {
            strays_end: Self::STRAYS_END,
            names_lowered: Self::NAMES_LOWERED,
        }
    }
}
