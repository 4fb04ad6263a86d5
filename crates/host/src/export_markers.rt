// Where does this name lead? Thin: the markers are lent as a list of records.
ghost use Rattle.std.specs.Prelude.{◌≡◌};
ghost use Rattle.abi.specs.MarkerLookup.{lookup};

use abi::marker_lookup::HostMarker;
use abi::{marker_lookup, marker_words};
use reading::Marker;

// Where the latest marker of a name leads, asked of a phase's marker records. `rules` is how many rules the phase has.
#[unsafe(no_mangle)]
pub extern "C" fn tivembo_marker_position(
    markers: &[Marker],
    rules: u64,
    text: &[u8],
    name: &[u8],
) -> HostMarker
    ensures { result ≡ lookup markers.now rules text.now name.now }
{
    let c = marker_words::unpack(markers);
    marker_lookup::look_up_words(c, rules, text, name)
}
