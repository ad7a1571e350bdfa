use super::*;
use bench_trait::{ArtefactBook, DigestBench};

#[test]
fn the_laws_of_order_flights_and_room_are_called(rt: HostRuntime) {
    let artefacts = ArtefactBook::empty(rt.alloc());
    ask_law();
    done_law();
    flight_law();
    order_law();
    prefix_law(&DigestBench, &artefacts);
    room_law();
}
