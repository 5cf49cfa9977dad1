// The theorem on the buffers that C lends, of the worked example of crate `proved_cases`, from its bytes; beside it what no image brings about, 13, 16 and the
// limit on depth, by their numbers. No code here.
#![tactic(auto)]
