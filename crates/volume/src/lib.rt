// Pages, links, marks and counts over a geometry: definitions in specs/, their laws in proofs/. No code, and no format.
#![tactic(auto)]
