ghost use Rattle.std.specs.Prelude.{◌≡◌, ◌↔◌, ◌++◌, ◌∷◌, [], length, Err, OnOk, OnErr};
ghost use Rattle.segmentation_definitions.specs.declared.limits.TheConstants.{MOST_CHOICES};

use derivation::Item;
use reader_choices::{ChoiceError, Choices};

/// Adds the choice that the item is kept or rejected. Refused where there are too many choices, or for want of memory; then they
/// are as they were.
pub(crate) fn add_choice(choices: &mut Choices, kept: bool, item: Item) -> Result<(), ChoiceError>
    ensures ok { OnOk result (choices.new ≡ choices.old ++ record { kept = kept; item = item } ∷ []) }
    ensures full { (result ≡ Err ChoiceError.Full) ↔ (length choices.old ≡ MOST_CHOICES) }
    ensures unchanged { OnErr result (choices.new ≡ choices.old) }
{
    if kept {
        choices.keep(item)
    } else {
        choices.reject(item)
    }
}
