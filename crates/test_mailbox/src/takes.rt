//! Takes of one thread, on cells with a last object alone. There a lost item costs two accesses, and one that is taken
//! costs three.

use crate::scenes::plays_in;
use mb_world::Setup;

#[test]
fn a_take_goes_on_past_what_it_loses(rt: HostRuntime) {
    let setup = Setup::exchange(1, 2, 3).expect(&rt, "no setup");
    let lines = "\
producer: given
consumer: given
consumer: given
put 0 70: linked
put 0 71: linked
take 0 0 3: took 70
take 1 0 5: took 71
take 1 0 1: nothing
finish 0: ended
take 0 0 3: ended
take 0 1 3: no_lane
drawn: words 4
";
    let report =
        "lane 0 ended put 70 71\nleft 0\ndiary 0 0 took 70 lost 1\ndiary 1 0 lost 0 took 71\n";
    plays_in(&rt, setup, lines, report);
}
