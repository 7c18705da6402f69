use flow_text::{parse, print};
use std::alloc::Global;
use std::test::Fail;

/// The print of what a text says.
fn printed(alloc: Global, text: &[u8]) -> Result<Vec<u8>, Fail> {
    let Ok(script) = parse(alloc, text) else {
        return Err(Fail::from("no script"));
    };
    Ok(print(alloc, &script)?)
}

/// The whole language, with more parentheses and fewer blanks than its print has.
const CROWDED: &str = "fact p(x,07),q;event a fail 02,b done,c fail;flow f=((a));\
goal iso((f|b)+nop)*!p(x,7)*((ins q|del q)|?q)+(a*c+b);\
constraint not(must a or never b)and(must b);constraint order a b c or(precedes a b or not not needs a b);";

const PRINTED: &str = "fact p(x,7);
fact q;
event a fail 2;
event b;
event c fail;
flow f = a;
goal iso(f | b + nop) * !p(x,7) * ((ins q | del q) | ?q) + (a * c + b);
constraint not (must a or never b) and must b;
constraint order a b c or (precedes a b or not not needs a b);
";

#[test]
fn texts_are_printed(rt: HostRuntime) -> Result<(), Fail> {
    for text in [CROWDED, PRINTED] {
        let told = printed(rt.alloc(), text.as_bytes())?;
        assert_eq!(rt; told.as_slice(), PRINTED.as_bytes(), "{text}");
    }
    Ok(())
}
