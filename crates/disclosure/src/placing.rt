// The place of each ballot in the lists that are compared: halves are written ballot by ballot, and each ballot asks for it in every list.
ghost use Rattle.std.specs.Prelude.{◌+◌, ◌*◌, ◌≤◌, ◌<◌, length};
ghost use Rattle.protocol.specs.Layout.{lists};
ghost use Rattle.disclosure.specs.Disclosed.{Shaped, Placed};

use protocol::Inputs;

// The place of each ballot in list l, where the list is compared.
fn place_if_compared(s: &Inputs, mask: u32, l: usize, places: &mut [u16])
    requires { Shaped s.now mask × ((l < lists s.now.parameters) × Placed s.now mask l places.old) }
    ensures { Placed s.now mask (l + 1) places.new }
{
    if (mask >> (l as u32)) % 2 == 0 {
        return;
    }
    let n = s.parameters.ballots;
    let from = layout::rank(mask, l) * n;
    let to = from + n;
    mixing::fill_places(s, l, &mut places[from..to]);
}

// .. and in all compared lists.
pub fn place_all(s: &Inputs, mask: u32, places: &mut [u16])
    requires { Shaped s.now mask × (s.now.parameters.compared * s.now.parameters.ballots ≤ length places.old) }
    ensures { Placed s.now mask (lists s.now.parameters) places.new }
{
    let lists = 2 * s.parameters.compared;
    for l in 0..lists {
        place_if_compared(s, mask, l, places);
    }
}
