use super::*;
use bench_trait::{ArtefactBook, DigestBench};

#[test]
fn the_laws_over_a_bench_are_laws_of_each_bench(rt: HostRuntime) {
    let artefacts = ArtefactBook::empty(rt.alloc());
    growth_law(&DigestBench, &artefacts);
    legal_schedule_law(&DigestBench, &artefacts);
    record_law(&DigestBench, &artefacts);
    rising_record_law(&DigestBench, &artefacts);
}
