// How much text a call may lead to: two products (specs/Sizes.antt), and the limit of each.
ghost use Rattle.std.specs.Prelude.{◌≡◌, ◌≤◌, OnOk, IfErr};
ghost use Rattle.pd_base.specs.declared.limits.TheConstants.{MOST_PATHS};
ghost use Rattle.commands.specs.InputRefusals.{long_path_text, long_test_text};
ghost use Rattle.commands.specs.Sizes.{HasLongTexts, HasShortTexts, path_text_product, test_text_product};

use calls::{Cause, Ending, Part, Refusal};
use netlist::Netlist;

/// The most that the product for the texts of the paths may be.
pub const MOST_PATH_TEXT: u64 = 67_108_864;

/// The most that the product for the texts of the tests may be.
pub const MOST_TEST_TEXT: u64 = 40_000_000;

/// What a step of a path takes beside the name of its gate: a pin of at most four digits, and two signs.
pub const STEP_BYTES: u64 = 6;

// The two products of a call.
#[derive(Clone, Copy)]
struct Sizes {
    // For the texts of the paths.
    path_text: u64,
    // For the texts of the tests.
    test_text: u64,
}

/// Refuses a circuit whose texts for so many paths may be too long: by the product for the texts of the paths first, then by that for
/// the texts of the tests.
pub(crate) fn require_short_texts(net: &Netlist, paths: u32) -> Result<(), Ending>
    requires { paths ≤ MOST_PATHS }
    ensures short { OnOk result (HasShortTexts paths net.now) }
    ensures long { IfErr result (HasLongTexts paths net.now) }
{
    let sizes = sizes_of(net, paths);
    if sizes.path_text > MOST_PATH_TEXT {
        return Err(Ending::Refused(long_path_text(sizes.path_text)));
    }
    if sizes.test_text > MOST_TEST_TEXT {
        return Err(Ending::Refused(long_test_text(sizes.test_text)));
    }
    Ok(())
}

// The refusal of texts of the paths that may be too long, by the product that bounds them.
fn long_path_text(product: u64) -> Refusal
    ensures { result ≡ long_path_text product }
{
    Refusal::new(
        Cause::Size,
        &[
            Part::Words(b"size: "),
            Part::Words(b"path text "),
            Part::Number(product),
        ],
    )
}

// That of texts of the tests.
fn long_test_text(product: u64) -> Refusal
    ensures { result ≡ long_test_text product }
{
    Refusal::new(
        Cause::Size,
        &[
            Part::Words(b"size: "),
            Part::Words(b"test text "),
            Part::Number(product),
        ],
    )
}

// The products for so many paths of a netlist.
fn sizes_of(net: &Netlist, paths: u32) -> Sizes
    requires { paths ≤ MOST_PATHS }
    ensures path_text { result.path_text ≡ path_text_product paths net.now }
    ensures test_text { result.test_text ≡ test_text_product paths net.now }
{
    let paths = u64::from(paths);
    let bits = u64::from(net.sources()) + net.observed().len() as u64;
    let names = u64::from(net.levels()) + 1;
    let name_bytes = u64::from(net.longest_name()) + STEP_BYTES;
    Sizes {
        path_text: paths * names * name_bytes,
        test_text: paths * bits,
    }
}
