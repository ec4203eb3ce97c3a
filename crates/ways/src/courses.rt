// The way between two stations, written to the front of a buffer.
ghost use Rattle.std.specs.Prelude.{◌≡◌, ◌<◌, map, length, take, drop};
ghost use Rattle.tree.specs.Courses.{course_from};
ghost use Rattle.tree.specs.Stations.{station_label};

use crate::cave::Cave;
use label::Label;

impl Cave<'_> {
    // How many stations are on the way from u to v.
    fn course_length(&self, u: usize, v: usize) -> usize
        requires first { u < length self.now.stations.now }
        requires second { v < length self.now.stations.now }
        ensures { result ≡ length (course_from self.now.stations.now u v) }
    {
        let mut a = u;
        let mut b = v;
        let mut count = 1;
        while a != b {
            if self.depth_of(a) < self.depth_of(b) {
                b = self.parent_of(b);
            } else {
                a = self.parent_of(a);
            }
            count += 1;
        }
        count
    }

    // Writes the labels of the stations on the way from u to v, and gives their count; what stands behind them is kept. The way is
    // climbed a second time: a list of its stations takes longer to make than most ways take to climb.
    pub(crate) fn write_course(&self, u: usize, v: usize, out: &mut [Label; 1024]) -> usize
        requires first { u < length self.now.stations.now }
        requires second { v < length self.now.stations.now }
        ensures count { result ≡ length (course_from self.now.stations.now u v) }
        ensures written { take result out.new ≡ map (station_label self.now.stations.now) (course_from self.now.stations.now u v) }
        ensures behind { drop result out.new ≡ drop result out.old }
    {
        let total = self.course_length(u, v);
        let mut a = u;
        let mut b = v;
        let mut front = 0;
        let mut back = total;
        while a != b {
            if self.depth_of(a) < self.depth_of(b) {
                back -= 1;
                out[back] = self.label_of(b);
                b = self.parent_of(b);
            } else {
                out[front] = self.label_of(a);
                front += 1;
                a = self.parent_of(a);
            }
        }
        out[front] = self.label_of(a);
        total
    }
}
