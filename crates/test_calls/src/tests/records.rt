use flow_model::{Entry, FailEffect, Step};
use flow_record::{RecordRefusal, print_history, read_history};

fn entry(step: Step) -> Entry {
    Entry { by: 12, step }
}

#[test]
fn prints_each_entry(rt: HostRuntime) {
    let switched = FailEffect::Switched;
    let kept = FailEffect::Kept;
    let history = [
        entry(Step::Took { claim: 1, leaf: 40 }),
        entry(Step::Failed {
            claim: 1,
            effect: switched,
        }),
        entry(Step::Failed {
            claim: 2,
            effect: kept,
        }),
        entry(Step::Late { claim: 3 }),
        entry(Step::Did { leaf: 5 }),
        entry(Step::Rewound { index: 0 }),
        entry(Step::Done { claim: 4 }),
        entry(Step::Committed),
    ];
    let text = print_history(rt.alloc(), &history).expect(&rt, "memory");
    assert_eq!(rt;
        text.as_slice(),
        b"12: took 1 40\n12: failed 1 switched\n12: failed 2 kept\n12: late 3\n12: did 5\n12: rewound 0\n12: done 4\n12: committed\n".as_slice()
    );
}

#[test]
fn reads_an_entry(rt: HostRuntime) {
    let Ok(read) = read_history(rt.alloc(), b"0: took 1 40\n") else {
        panic!(&rt; "it is not read")
    };
    assert_eq!(rt; read.len(), 1);
    let first = read.first().copied();
    assert!(rt;
        matches!(
            first,
            Some(Entry {
                by: 0,
                step: Step::Took { claim: 1, leaf: 40 }
            })
        )
    );
}

#[test]
fn a_number_with_a_zero_before_it_is_not_read(rt: HostRuntime) {
    let read = read_history(rt.alloc(), b"0: took 01 40\n");
    assert!(rt; matches!(read, Err(RecordRefusal::BadLine { line: 0 })));
}
