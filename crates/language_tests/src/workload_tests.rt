use std::test::Fail;
use workload::generate;

const TWO_STAGES: &[u8] = b"\
Stage {
  roles A, B
  parameters out ID key, out x1, out x2
  A -> B: yes1[out ID, out x1]
  A -> B: no1[out ID, out x1]
  B -> A: yes2[in ID, in x1, out x2]
  B -> A: no2[in ID, in x1, out x2]
}
%% agents
keys 1000
seed 2
";

#[test]
fn makes_a_text_of_two_stages(rt: HostRuntime) -> Result<(), Fail> {
    assert!(rt; generate(rt.alloc(), 2)?.as_slice() == TWO_STAGES);
    Ok(())
}
