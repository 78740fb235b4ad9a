// What is promised: the three demands over all libraries, and the worked examples of document 01. No code.
#![tactic(auto)]
