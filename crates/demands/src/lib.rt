// The customer's demands, said of the calls in code: specs/Demands.antt. There is no code here.
#![tactic(auto)]
