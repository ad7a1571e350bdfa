use crate::status::Status;
use crate::test_runs::expect_each;
use std::test::Fail;

// What the program says of two whole jobs. The reports were made by an independent program in another
// language.

pub const BANK: &str =
    "{\"places\":[{\"name\":\"bank\",\"key\":\"000102030405060708090a0b0c0d0e0f\",\"asks\":[\"ks\",\"us\"]},{\"name\":\"ks\",\"key\":\"101112131415161718191a1b1c1d1e1f\",\"sees\":[\"us\"],\"offers\":[\"kernel\"]},{\"name\":\"us\",\"key\":\"202122232425262728292a2b2c2d2e2f\",\"offers\":[\"scanner\",\"files\"]}],\"artefacts\":[{\"place\":\"us\",\"name\":\"kernel\",\"bytes\":\"6b31\"},{\"place\":\"us\",\"name\":\"scanner\",\"bytes\":\"7331\"},{\"place\":\"us\",\"name\":\"files\",\"bytes\":\"6631\"}],\"sessions\":[{\"root\":\"bank\",\"nonce\":\"f0f1f2f3f4f5f6f7f8f9fafbfcfdfeff\",\"phrase\":\"@ks [KIM us kernel -> SIG] +<+ @us [USM scanner -> USM files etc -> SIG]\"}]}";

pub const FOUR_SESSIONS: &str =
    "{\"places\":[{\"name\":\"bank\",\"key\":\"000102030405060708090a0b0c0d0e0f\",\"asks\":[\"q\"],\"sees\":[\"q\"],\"offers\":[\"scan\",\"a\",\"b\"]},{\"name\":\"q\",\"key\":\"101112131415161718191a1b1c1d1e1f\",\"asks\":[\"bank\"],\"offers\":[\"scan\"]}],\"artefacts\":[{\"place\":\"bank\",\"name\":\"scan\",\"bytes\":\"0102\"}],\"sessions\":[{\"root\":\"bank\",\"nonce\":\"000102030405060708090a0b0c0d0e0f\",\"phrase\":\"USM scan -> SIG\"},{\"root\":\"bank\",\"nonce\":\"100102030405060708090a0b0c0d0e0f\",\"phrase\":\"USM scan -> SIG\"},{\"root\":\"bank\",\"nonce\":\"200102030405060708090a0b0c0d0e0f\",\"phrase\":\"@q [@bank [@q [CPY]]]\"},{\"root\":\"bank\",\"nonce\":\"300102030405060708090a0b0c0d0e0f\",\"phrase\":\"USM a -<+ USM b\"}]}";

const BANK_CHECK: &str =
    "session 0 ok events 11 weight 3202\nphrase @ks [KIM us kernel -> SIG] +<+ @us [USM scanner -> USM files etc -> SIG]\n";

const BANK_SHAPE: &str =
    "session 0 shape S(G(ks,3,K(ks,2,us,kernel,N)),G(us,8,U(us,7,files etc,U(us,6,scanner,N))))\n";

const BANK_EVENTS: &str =
    "session 0 events 11\nevent 0 split at bank\nevent 1 req ks at bank after 0\nevent 2 kim us kernel at ks after 1\nevent 3 sig at ks after 2\nevent 4 rpl ks at bank after 3\nevent 5 req us at bank after 4\nevent 6 usm scanner at us after 5\nevent 7 usm files etc at us after 6\nevent 8 sig at us after 7\nevent 9 rpl us at bank after 8\nevent 10 join at bank after 9\n";

const BANK_CODE: &str =
    "session 0 code\nblock root at bank\nsplit 0 ++\nsend 1 ks\nrecv 4 1\nswap\nsend 5 us\nrecv 9 5\njoinseq 10\nend\nblock 1 at ks\nkim 2 us kernel\nsign 3\nend\nblock 5 at us\nusm 6 scanner\nusm 7 files etc\nsign 8\nend\n";

const BANK_EVAL: &str =
    "session 0 done\nanswer 2 1d5ec4fccf77d8948903efcd51246f62f94e8271f0cb18d9b69f79787cddd676\nanswer 6 966ba0f65ff9c3b152b55ebbc18f29d4b995057eb63ec2dcc03e4e86c3bee329\nanswer 7 9b2bc8699c35df1c3a107e1ef36989296d5a1cab6370e71caaaaa5a0c4a15469\nbundle 43504c4201000000e2060400000003ef195e4c653855da7a1d91b0d9e830a3c12b2f94ed9501067003bb6e34590b1e030000000200201d5ec4fccf77d8948903efcd51246f62f94e8271f0cb18d9b69f79787cddd67601f0f1f2f3f4f5f6f7f8f9fafbfcfdfeff040000000823615b8221b1a0920c84aaaa3242b40a4279eecbcc0418bec5b1867e7215dfc4020000000700209b2bc8699c35df1c3a107e1ef36989296d5a1cab6370e71caaaaa5a0c4a1546902000000060020966ba0f65ff9c3b152b55ebbc18f29d4b995057eb63ec2dcc03e4e86c3bee32901f0f1f2f3f4f5f6f7f8f9fafbfcfdfeff\n";

pub const BANK_WALK_0: &str =
    "session 0 done\ntrace 0 1 2 3 4 5 6 7 8 9 10\nanswer 2 1d5ec4fccf77d8948903efcd51246f62f94e8271f0cb18d9b69f79787cddd676\nanswer 6 966ba0f65ff9c3b152b55ebbc18f29d4b995057eb63ec2dcc03e4e86c3bee329\nanswer 7 9b2bc8699c35df1c3a107e1ef36989296d5a1cab6370e71caaaaa5a0c4a15469\nbundle 43504c4201000000e2060400000003ef195e4c653855da7a1d91b0d9e830a3c12b2f94ed9501067003bb6e34590b1e030000000200201d5ec4fccf77d8948903efcd51246f62f94e8271f0cb18d9b69f79787cddd67601f0f1f2f3f4f5f6f7f8f9fafbfcfdfeff040000000823615b8221b1a0920c84aaaa3242b40a4279eecbcc0418bec5b1867e7215dfc4020000000700209b2bc8699c35df1c3a107e1ef36989296d5a1cab6370e71caaaaa5a0c4a1546902000000060020966ba0f65ff9c3b152b55ebbc18f29d4b995057eb63ec2dcc03e4e86c3bee32901f0f1f2f3f4f5f6f7f8f9fafbfcfdfeff\n";

const FOUR_CHECK: &str =
    "session 0 ok events 2 weight 1085\nphrase USM scan -> SIG\nsession 1 ok events 2 weight 1085\nphrase USM scan -> SIG\nsession 2 ok events 7 weight 17\nphrase @q [@bank [@q [CPY]]]\nsession 3 ok events 4 weight 2081\nphrase USM a -<+ USM b\n";

const FOUR_SHAPE: &str =
    "session 0 shape G(bank,1,U(bank,0,scan,N))\nsession 1 shape G(bank,1,U(bank,0,scan,N))\nsession 2 shape N\nsession 3 shape S(U(bank,1,a,E),U(bank,2,b,N))\n";

const FOUR_EVENTS: &str =
    "session 0 events 2\nevent 0 usm scan at bank\nevent 1 sig at bank after 0\nsession 1 events 2\nevent 0 usm scan at bank\nevent 1 sig at bank after 0\nsession 2 events 7\nevent 0 req q at bank\nevent 1 req bank at q after 0\nevent 2 req q at bank after 1\nevent 3 cpy at q after 2\nevent 4 rpl q at bank after 3\nevent 5 rpl bank at q after 4\nevent 6 rpl q at bank after 5\nsession 3 events 4\nevent 0 split at bank\nevent 1 usm a at bank after 0\nevent 2 usm b at bank after 1\nevent 3 join at bank after 2\n";

const FOUR_CODE: &str =
    "session 0 code\nblock root at bank\nusm 0 scan\nsign 1\nend\nsession 1 code\nblock root at bank\nusm 0 scan\nsign 1\nend\nsession 2 code\nblock root at bank\nsend 0 q\nrecv 6 0\nend\nblock 0 at q\nsend 1 bank\nrecv 5 1\nend\nblock 1 at bank\nsend 2 q\nrecv 4 2\nend\nblock 2 at q\ncopy 3\nend\nsession 3 code\nblock root at bank\nsplit 0 -+\nusm 1 a\nswap\nusm 2 b\njoinseq 3\nend\n";

const FOUR_EVAL: &str =
    "session 0 done\nanswer 0 ef1697f6baa17ed070c8baccaee10f159fc069a3018fee9ed7127ad070869b7b\nbundle 43504c42010000005d0400000001b7e44129a53779ae0ea91fb1824cea17cdb322489aa3f78a4043354a69f5507e02000000000020ef1697f6baa17ed070c8baccaee10f159fc069a3018fee9ed7127ad070869b7b01000102030405060708090a0b0c0d0e0f\nsession 1 done\nanswer 0 ef1697f6baa17ed070c8baccaee10f159fc069a3018fee9ed7127ad070869b7b\nbundle 43504c42010000005d04000000017aaaa0059d1c3bed7eed19c173ffe385cbf74e5a2c8d14431266a0af9c37c3bc02000000000020ef1697f6baa17ed070c8baccaee10f159fc069a3018fee9ed7127ad070869b7b01100102030405060708090a0b0c0d0e0f\nsession 2 done\nbundle 43504c42010000001101200102030405060708090a0b0c0d0e0f\nsession 3 failed 1 no-artefact\n";

pub const FOUR_WALK_0: &str =
    "session 0 done\ntrace 0 1\nanswer 0 ef1697f6baa17ed070c8baccaee10f159fc069a3018fee9ed7127ad070869b7b\nbundle 43504c42010000005d0400000001b7e44129a53779ae0ea91fb1824cea17cdb322489aa3f78a4043354a69f5507e02000000000020ef1697f6baa17ed070c8baccaee10f159fc069a3018fee9ed7127ad070869b7b01000102030405060708090a0b0c0d0e0f\nsession 1 done\ntrace 0 1\nanswer 0 ef1697f6baa17ed070c8baccaee10f159fc069a3018fee9ed7127ad070869b7b\nbundle 43504c42010000005d04000000017aaaa0059d1c3bed7eed19c173ffe385cbf74e5a2c8d14431266a0af9c37c3bc02000000000020ef1697f6baa17ed070c8baccaee10f159fc069a3018fee9ed7127ad070869b7b01100102030405060708090a0b0c0d0e0f\nsession 2 done\ntrace 0 1 2 3 4 5 6\nbundle 43504c42010000001101200102030405060708090a0b0c0d0e0f\nsession 3 failed 1 no-artefact\ntrace 0\n";

#[test]
fn the_bank_job_is_reported(rt: HostRuntime) -> Result<(), Fail> {
    expect_each(
        &rt,
        rt.alloc(),
        BANK,
        &[
            ("check", Status::Good, BANK_CHECK),
            ("shape", Status::Good, BANK_SHAPE),
            ("events", Status::Good, BANK_EVENTS),
            ("code", Status::Good, BANK_CODE),
            ("eval", Status::Good, BANK_EVAL),
            ("walk 0", Status::Good, BANK_WALK_0),
        ],
    )
}

// The first two sessions are equal but for their nonces: so are their answers, and their seals differ. The
// third asks back and forth between two places. The fourth fails at a measurement in its left arm.
#[test]
fn four_sessions_are_reported(rt: HostRuntime) -> Result<(), Fail> {
    expect_each(
        &rt,
        rt.alloc(),
        FOUR_SESSIONS,
        &[
            ("check", Status::Good, FOUR_CHECK),
            ("shape", Status::Good, FOUR_SHAPE),
            ("events", Status::Good, FOUR_EVENTS),
            ("code", Status::Good, FOUR_CODE),
            ("eval", Status::SomeFailed, FOUR_EVAL),
            ("walk 0", Status::SomeFailed, FOUR_WALK_0),
        ],
    )
}
