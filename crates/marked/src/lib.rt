// The marked examples of document 01, proved from the definitions together: see specs/Marked.antt.
#![tactic(auto)]
