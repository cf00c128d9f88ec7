// The laws of the assembler: what its step gives of packets, beside the concatenation of their payloads. No code: all is in specs/ and proofs/.
#![tactic(auto)]
