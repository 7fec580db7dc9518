// What document 02 says of the fill gauge, of runs of the calls in code: specs/Claims.antt. There is no code here.
#![tactic(auto)]
