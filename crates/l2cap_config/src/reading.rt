//! A list of options from its octets.

ghost use Rattle.std.specs.Prelude.{◌≡◌, List, IfOk, IfErr};
ghost use Rattle.std.specs.List.{AllByRecursion};
ghost use Rattle.l2cap_config.specs.declared.options.ConfigRefusal.TheVariants.{BadOptionLength};
ghost use Rattle.l2cap_config.specs.Items.{Item, IsItem, spelled, options_in};
ghost use Rattle.l2cap_config.specs.Reading.{options_read};

use crate::item::{item_of, options_from};
use crate::options::{ConfigRefusal, Options};

/// The options that the octets state. The only refusal is `BadOptionLength`: the octets are no list of
/// whole options, or a known option, hint or not, has a value of another length.
pub fn options_of(octets: &[u8]) -> Result<Options, ConfigRefusal>
    // What is read is spelled so, each octet of it.
    ensures found { IfOk result (λ options. (items : List Item) × AllByRecursion IsItem items × (octets.now ≡ spelled items) × (options ≡ options_in items)) }
    // What is spelled so is read.
    ensures only { (items : List Item) → AllByRecursion IsItem items → octets.now ≡ spelled items → result ≡ Ok (options_in items) }
    ensures refused { IfErr result (λ refusal. refusal ≡ BadOptionLength) }
    ensures exact { result ≡ options_read octets.now }
{
    all_of(octets)
}

fn all_of(octets: &[u8]) -> Result<Options, ConfigRefusal>
    ensures { result ≡ options_read octets.now }
{
    let mut options = Options::none();
    let mut rest = octets;
    while !rest.is_empty() {
        let Some((item, behind)) = item_of(rest) else {
            return Err(ConfigRefusal::BadOptionLength);
        };
        options.join(&options_from(&item));
        rest = behind;
    }
    Ok(options)
}
