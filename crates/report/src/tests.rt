use crate::lines::{push_refusals, push_verdict};
use crate::sums::push_sum;
use command::Refused;
use relations::Refusal;
use std::test::Fail;
use systems::Verdict;

fn refused(command: u32) -> Refused {
    let refusal = Refusal {
        number: 11,
        layer: 1,
    };
    Refused { command, refusal }
}

#[test]
fn refused_and_unmet(rt: HostRuntime) -> Result<(), Fail> {
    let mut text = String::new(rt.alloc());
    push_refusals(&mut text, &[refused(0), refused(20)])?;
    push_sum(&mut text, &[0, 2, 0, 3, 4], 2)?;
    text.push_str(" ; ")?;
    push_sum(&mut text, &[], 2)?;
    text.push_str(" ; ")?;
    push_sum(&mut text, &[1], 2)?;
    text.push_str("\n")?;
    push_verdict(&mut text, Verdict::Unmet(17))?;
    assert_eq!(rt;
        text.as_str(),
        "refused 0 11 1\nrefused 20 11 1\n2 i0 + 3 w0 + 4 w1 ; 0 ; 1 one\nunmet 17\n"
    );
    Ok(())
}
