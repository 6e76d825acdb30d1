#![tactic(auto)]
// What the writer's calls append is what RSolver.dfy's Extend, ExtendWithEquality, Record and RecordTracePoint return. See specs/ and proofs/.
