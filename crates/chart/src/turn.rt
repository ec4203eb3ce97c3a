// Turns the legs of a file's records, each to an earlier record, so that they lead to the root.
ghost use Rattle.std.specs.Prelude.{◌≡◌, ◌≢◌, ◌+◌, ◌<◌, ◌≤◌, None, length, slice_index};
ghost use Rattle.records.specs.Lists.{join_of};
ghost use Rattle.tree.specs.Turned.{Turned, Settled};
ghost use Rattle.chart.specs.Links.{ups_of, depths_of, up_of, depth_of};

use crate::link::Link;
use records::Records;

// The links of the stations on the way from `root` to the first record, which is turned.
fn reverse(records: &Records, root: u16) -> [Option<Link>; 1024]
    requires { root < length records.now.labels }
    ensures { Turned records.now.joins root (ups_of result) (depths_of result) 0 }
{
    let rows = records.as_slice();
    let mut links = [None; 1024];
    let mut here = root;
    let mut link = Link { up: root, depth: 1 };
    links[here as usize] = Some(link);
    while let Some(below) = rows[here as usize].joined {
        // Every record but the first is joined to an earlier one; a join of the first counts for nothing.
        if here == 0 {
            break;
        }
        link = Link {
            up: here,
            depth: link.depth + 1,
        };
        links[below as usize] = Some(link);
        here = below;
    }
    links
}

// The link to the station that a record is joined to, which has its own.
fn link_to(joined: Option<u16>, links: &[Option<Link>; 1024]) -> Option<Link>
    requires some { joined ≢ None }
    requires linked { 0 < slice_index (depths_of links.now) (join_of joined) }
    requires low { slice_index (depths_of links.now) (join_of joined) ≤ 2048 }
    ensures up { up_of result ≡ join_of joined }
    ensures depth { depth_of result ≡ slice_index (depths_of links.now) (join_of joined) + 1 }
{
    let up = joined?;
    let depth = links[up as usize]?.depth + 1;
    Some(Link { up, depth })
}

// The links of all stations: each that is not on the way to the first record is joined to an earlier one, which has its
// link by then.
pub(crate) fn turn(records: &Records, root: u16) -> [Option<Link>; 1024]
    requires { root < length records.now.labels }
    ensures { Settled records.now.joins root (ups_of result) (depths_of result) }
{
    let mut links = reverse(records, root);
    // The links are read and written while the rows are gone over, so they are found by index.
    for (k, row) in records.as_slice().iter().enumerate() {
        if links[k].is_none() {
            links[k] = link_to(row.joined, &links);
        }
    }
    links
}
