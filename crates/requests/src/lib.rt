// The request in the 18 bytes of a record of a session, and back: what the bytes mean. No code here.
#![tactic(auto)]
