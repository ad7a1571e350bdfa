use crate::status::Status;
use crate::test_runs::{WHOLE, expect_each, expect_run, job_of};
use std::alloc::Global;
use std::test::Fail;

// Choices among the sessions of whole jobs by release policies. The reports were made by an independent
// program in another language.

const BANK: &str =
    "{\"places\":[{\"name\":\"bank\",\"key\":\"000102030405060708090a0b0c0d0e0f\",\"asks\":[\"ks\",\"us\"]},{\"name\":\"ks\",\"key\":\"101112131415161718191a1b1c1d1e1f\",\"sees\":[\"us\"],\"offers\":[\"kernel\"]},{\"name\":\"us\",\"key\":\"202122232425262728292a2b2c2d2e2f\",\"offers\":[\"scanner\",\"files\"]}],\"sessions\":[{\"root\":\"bank\",\"nonce\":\"f0f1f2f3f4f5f6f7f8f9fafbfcfdfeff\",\"phrase\":\"@ks [KIM us kernel -> SIG] +<+ @us [USM scanner -> USM files etc -> SIG]\"}]}";

const THREE_OFFERS: &str =
    "{\"places\":[{\"name\":\"bank\",\"key\":\"000102030405060708090a0b0c0d0e0f\",\"asks\":[\"q\"]},{\"name\":\"q\",\"key\":\"101112131415161718191a1b1c1d1e1f\",\"offers\":[\"scan\"]}],\"sessions\":[{\"root\":\"bank\",\"nonce\":\"000102030405060708090a0b0c0d0e0f\",\"phrase\":\"@q [USM scan]\"},{\"root\":\"bank\",\"nonce\":\"100102030405060708090a0b0c0d0e0f\",\"phrase\":\"@q [USM scan -> SIG]\"},{\"root\":\"bank\",\"nonce\":\"200102030405060708090a0b0c0d0e0f\",\"phrase\":\"@q [USM scan -> SIG -> HSH]\"}]}";

#[test]
fn the_first_offer_without_a_denial_is_chosen(rt: HostRuntime) -> Result<(), Fail> {
    let alloc = rt.alloc();
    let table = [
        (
            "choose ks:kernel=seal>bank;us:scanner=seal>bank",
            Status::Denied,
            "offer 0 denied event 9 leaf 7 rule none\nchosen none\n",
        ),
        (
            "choose ks:kernel=seal>bank;us:*=seal>*",
            Status::Good,
            "chosen 0\nphrase @ks [KIM us kernel -> SIG] +<+ @us [USM scanner -> USM files etc -> SIG]\n",
        ),
        (
            "choose ks:kernel=hash>bank;*:*=bare>*",
            Status::Denied,
            "offer 0 denied event 4 leaf 2 rule 0\nchosen none\n",
        ),
    ];
    expect_each(&rt, alloc, BANK, &table)?;
    let table = [
        (
            "choose q:scan=bare>bank",
            Status::Good,
            "chosen 0\nphrase @q [USM scan]\n",
        ),
        (
            "choose q:*=seal>*",
            Status::Good,
            "offer 0 denied event 2 leaf 1 rule 0\nchosen 1\nphrase @q [USM scan -> SIG]\n",
        ),
        (
            "choose *:other=bare>*;*:scan=hash>bank",
            Status::Good,
            "offer 0 denied event 2 leaf 1 rule 1\noffer 1 denied event 3 leaf 1 rule 1\nchosen 2\nphrase @q [USM scan -> SIG -> HSH]\n",
        ),
        (
            "choose *:*=none>*",
            Status::Denied,
            "offer 0 denied event 2 leaf 1 rule 0\noffer 1 denied event 3 leaf 1 rule 0\noffer 2 denied event 4 leaf 1 rule 0\nchosen none\n",
        ),
    ];
    expect_each(&rt, alloc, THREE_OFFERS, &table)?;
    let job = job_of(alloc, "USM a")?;
    let table = [(
        "choose *:*=none>*",
        Status::Good,
        "chosen 0\nphrase USM a\n",
    )];
    expect_each(&rt, alloc, job.as_str(), &table)
}

/// Words with this rule so many times.
fn repeated(alloc: Global, rule: &str, count: u32) -> Result<String, Fail> {
    let mut words = String::from_str(alloc, "choose ")?;
    for index in 0..count {
        if index > 0 {
            words.push_str(";")?;
        }
        words.push_str(rule)?;
    }
    Ok(words)
}

#[test]
fn words_that_spell_no_policy_are_wrong(rt: HostRuntime) -> Result<(), Fail> {
    let alloc = rt.alloc();
    let table = [
        ("choose", Status::BadWords, "error: words\n"),
        ("choose ;", Status::BadWords, "error: words\n"),
        ("choose *:*=bare>*;", Status::BadWords, "error: words\n"),
        ("choose *:*=sealed>*", Status::BadWords, "error: words\n"),
        ("choose *:*=bare", Status::BadWords, "error: words\n"),
        ("choose *:*=bare>* x", Status::BadWords, "error: words\n"),
        ("choose *:*=bare>*", Status::NotJson, "error: not json\n"),
    ];
    expect_each(&rt, alloc, "", &table)?;
    let most = repeated(alloc, "*:*=bare>*", 256)?;
    let read = (Status::NotJson, "error: not json\n");
    expect_run(&rt, alloc, most.as_str(), "", &WHOLE, read)?;
    let many = repeated(alloc, "*:*=bare>*", 257)?;
    let wrong = (Status::BadWords, "error: words\n");
    expect_run(&rt, alloc, many.as_str(), "", &WHOLE, wrong)
}
