use super::*;
use std::test::Fail;
use vx_base::{Call, ConvOSync, Flag, Logging, MinCache, WriteClass};

const LISTS: [(&[u8], Result<Logging, OptionRefusal>); 10] = [
    (b"log", Ok(Logging::Log)),
    (b"delaylog", Ok(Logging::DelayLog)),
    (b"", Err(OptionRefusal::BadOption { at: 0 })),
    (b"log,foo", Err(OptionRefusal::BadOption { at: 1 })),
    (b"log,,log", Err(OptionRefusal::BadOption { at: 1 })),
    (b"log,log", Err(OptionRefusal::Twice(OptionName::Logging))),
    (
        b"delaylog,log,,",
        Err(OptionRefusal::Twice(OptionName::Logging)),
    ),
    (b"tmplog", Err(OptionRefusal::BadOption { at: 0 })),
    (b"log,blkclear", Err(OptionRefusal::BadOption { at: 1 })),
    (b"mincache=direct", Err(OptionRefusal::BadOption { at: 0 })),
];

#[test]
fn reads_lists(rt: HostRuntime) {
    for (list, wanted) in LISTS {
        let read = Options::parse(list).map(|options| options.logging);
        assert!(rt; read == wanted);
    }
}

#[test]
fn decides_by_options(rt: HostRuntime) {
    let options = Options {
        logging: Logging::TmpLog,
        blkclear: false,
        mincache: Some(MinCache::TmpCache),
        convosync: Some(ConvOSync::Direct),
    };
    assert!(rt; loose(&options));
    assert!(rt; class(Flag::DSync, &options) == WriteClass::Direct);
    assert!(rt; flushes_at_close(Flag::Sync, &options));
    assert!(rt; !flushes_at_close(Flag::Plain, &options));
    assert!(rt; !commits(&Call::Tick, &options));
}
