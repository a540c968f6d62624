//! Laws of tidying. No call uses them.

ghost use Rattle.std.specs.Prelude.{◌≡◌, ℕ, List};
ghost use Rattle.bohm_tidy.specs.Tidied.{IsTidied, IsTidyText};

use bohm_text::laws::one_text;

/// The output of tidying is the text of a document whose keys ascend.
pub fn tidied_is_text()
    ensures { (text exact : List ℕ) → IsTidied text exact → IsTidyText exact }
{}

/// An exact text whose keys ascend is unchanged, byte for byte.
pub fn exact_text_stays()
    ensures { (text exact : List ℕ) → IsTidyText text → IsTidied text exact → exact ≡ text }
{
    one_text();
}

/// Tidying twice is tidying once.
pub fn twice_is_once()
    ensures { (text exact again : List ℕ) → IsTidied text exact → IsTidied exact again
        → again ≡ exact }
{
    one_text();
}
