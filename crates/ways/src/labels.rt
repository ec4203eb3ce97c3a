// Writing the labels of listed stations to the front of a buffer.
ghost use Rattle.std.specs.Prelude.{◌≡◌, ℕ, ◌<◌, ◌≤◌, map, length, take, drop, slice_index};
ghost use Rattle.tree.specs.Stations.{station_label};

use crate::cave::Cave;
use label::Label;

impl Cave<'_> {
    // Writes the labels of stations to the front of the buffer, and gives their count; what stands behind them is kept.
    pub(crate) fn write_labels(&self, places: &[u16], out: &mut [Label]) -> usize
        requires room { length places.now ≤ length out.old }
        requires inside { (k : ℕ) → k < length places.now → slice_index places.now k < length self.now.stations.now }
        ensures count { result ≡ length places.now }
        ensures written { take result out.new ≡ map (station_label self.now.stations.now) places.now }
        ensures behind { drop result out.new ≡ drop result out.old }
    {
        for (k, place) in places.iter().enumerate() {
            out[k] = self.label_of(usize::from(*place));
        }
        places.len()
    }
}
