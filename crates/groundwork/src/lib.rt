// What definitions stand on that is not about document 01: decisions of equality, and what may be there or not. There is no code.
#![tactic(auto)]
