//! A generated load by plans, and in the model that the definitions of its calls are.

use area_model::{Stepped, grows, is_ready, model_step, model_verdict};
use gen_load::load;
use mm_types::{Access, AreaList, Call, Config, Counters, NoMemory, Page, Reply};
use plain_space::PlainSpace;
use std::alloc::Global;
use std::process::Abort;
use std::test::Fail;
use trace_reader::{Op, Trace, read};

/// One fault, by the space and by the model.
fn compare_fault(
    rt: &impl Abort,
    config: &Config,
    space: &PlainSpace<'_>,
    model: &Stepped,
    page: Page,
    access: Access,
) {
    assert!(rt; is_ready(config, model.counters, &model.list));
    let grows = grows(config, &model.list, page, access);
    assert!(rt; space.grows(page, access) == grows);
    if !grows {
        let verdict = model_verdict(config, &model.list, page, access);
        assert!(rt; space.verdict(page, access) == verdict);
    }
}

/// One call, by the space and by the model.
fn compare_call(
    rt: &impl Abort,
    alloc: Global,
    config: &Config,
    space: &mut PlainSpace<'_>,
    model: &Stepped,
    call: &Call,
) -> Result<Stepped, NoMemory> {
    assert!(rt; is_ready(config, model.counters, &model.list));
    let wanted = model_step(alloc, config, model.counters, &model.list, call)?;
    assert!(rt; space.counters().objects < u32::MAX);
    assert_eq!(rt; space.call(call), wanted.reply, "{call:?}");
    let list = space.copy_list(alloc)?;
    assert!(rt; list.items() == wanted.list.items(), "{call:?}");
    assert!(rt; space.counters() == wanted.counters, "{call:?}");
    Ok(wanted)
}

/// The lines of a trace without files, one after another on a space and in the model.
fn compare_lines(rt: &impl Abort, alloc: Global, trace: &Trace) -> Result<(), NoMemory> {
    let config = &trace.config;
    assert!(rt; config.valid());
    let mut space = PlainSpace::new(alloc, config)?;
    let mut model = Stepped {
        list: AreaList::of(Vec::new(alloc)),
        counters: Counters::opening(config),
        reply: Reply::Zero,
    };
    for line in trace.lines.items() {
        match line.op {
            Op::Call(call) => {
                model = compare_call(rt, alloc, config, &mut space, &model, &call)?;
            }
            Op::Fault { page, access } => {
                compare_fault(rt, config, &space, &model, page, access);
            }
            Op::Maps | Op::Fork { .. } => {}
        }
    }
    Ok(())
}

#[test]
fn a_load_does_as_the_model(rt: HostRuntime) -> Result<(), Fail> {
    let bytes = load(rt.alloc(), 20_000, 1)?;
    let trace = read(rt.alloc(), bytes.as_slice())?;
    compare_lines(&rt, rt.alloc(), &trace)?;
    Ok(())
}
